// A request, and the line that it is judged by, put together at the front of a buffer.
ghost use Rattle.std.specs.Prelude.{◌≡◌, ℕ, ◌+◌, ◌≤◌, List, [], ◌∷◌, ◌++◌, length, nat_le};
ghost use Rattle.escape.specs.Resolving.{fitting, written};
ghost use Rattle.line.specs.Forms.{check_of};
ghost use Rattle.writer.specs.Canonical.{in_two_digits, closed};
ghost use Rattle.writer.specs.Writing.{Lies};
ghost use Rattle.request.specs.Requests.{composed};

use line::{LINE_MAX, check_sum};
use numeral::digits;

// Two slashes around the digit, and a third with the two digits of the check.
const AROUND_LEN: usize = 6;

// A command as a caller gives it: an address, and a body with its escapes.
#[derive(Clone, Copy)]
pub struct Request<'a> {
    pub address: &'a [u8],
    pub body: &'a [u8],
}

// Copies bytes behind the `at` bytes that are written, and answers how many are written then.
// Fixed memory: a line grows at the front of the caller's buffer, with its length beside it.
// The crate `writer` has its own: a public function has no precondition here, and this one would ask its callers for the room.
fn put(line: &mut [u8], at: usize, bytes: &[u8]) -> usize
    requires { at + length bytes.now ≤ length line.old }
    ensures end { result ≡ at + length bytes.now }
    ensures lies { (was l : List ℕ) → Lies was l line.old at → Lies was (l ++ bytes.now) line.new result }
{
    let end = at + bytes.len();
    line[at..end].copy_from_slice(bytes);
    end
}

// Closes the `at` bytes that are written with the third slash and their check.
fn put_check(line: &mut [u8], at: usize) -> usize
    requires { at + 3 ≤ length line.old }
    ensures { (was l : List ℕ) → Lies was l line.old at → Lies was (closed l) line.new result }
{
    let at = put(line, at, b"/");
    let check = check_digits(&line[..at]);
    put(line, at, &check)
}

// The check of a line that goes up to its third slash.
#[tactic(auto, using(crate::proofs::Puts::in_two))]
fn check_digits(line: &[u8]) -> [u8; 2]
    ensures { result ≡ in_two_digits (check_of line.now) }
{
    digits::<2>(u32::from(check_sum(line)))
}

impl Request<'_> {
    // Whether its line is not too long.
    fn is_short(&self) -> bool
        ensures { result ≡ nat_le (length self.now.address.now + length self.now.body.now + 6) 1024 }
    {
        let room = LINE_MAX - AROUND_LEN;
        self.address.len() <= room && self.body.len() <= room - self.address.len()
    }

    // Writes what stands before the third slash.
    fn put_parts(&self, digit: u8, line: &mut [u8]) -> usize
        requires { length self.now.address.now + length self.now.body.now + 3 ≤ length line.old }
        ensures end { result ≡ length self.now.address.now + length self.now.body.now + 3 }
        ensures lies { (was l : List ℕ) → Lies was l line.old 0 → Lies was (((l ++ self.now.address.now) ++ (47 ∷ digit ∷ 47 ∷ [])) ++ self.now.body.now) line.new result }
    {
        let at = put(line, 0, self.address);
        let at = put(line, at, &[b'/', digit, b'/']);
        put(line, at, self.body)
    }

    // Writes its line, with the digit for its mark, to the buffer's front and answers its length; or writes nothing, for want of room.
    pub fn compose(&self, digit: u8, line: &mut [u8; LINE_MAX]) -> Option<usize>
        ensures answer { result ≡ fitting (composed self.now.address.now digit self.now.body.now) 1024 }
        ensures after { line.new ≡ written (composed self.now.address.now digit self.now.body.now) line.old }
    {
        if !self.is_short() {
            return None;
        }
        let at = self.put_parts(digit, line);
        Some(put_check(line, at))
    }
}
