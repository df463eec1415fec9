// What a line says: its message borrows address and body from the line.
ghost use Rattle.std.specs.Prelude.{◌≡◌};
ghost use Rattle.line.specs.Meanings.{side_of, placed, message_of};

// Who speaks: a command goes to a player, an answer comes from one.
#[derive(Clone, Copy, PartialEq, Eq, Debug)]
pub enum Side {
    Command,
    Answer,
}

// A device, as its bytes stand in the line, and the music zone.
#[derive(Clone, Copy)]
pub struct Address<'a> {
    pub device: &'a [u8],
    pub zone: Option<u8>,
}

#[derive(Clone, Copy)]
pub enum Message<'a> {
    // an answer to a numbered command, or with the mark `?` to none that is known
    Answer {
        address: Address<'a>,
        mark: char,
        body: &'a [u8],
    },
    // what the player tells unasked, with the mark `!`
    Event {
        address: Address<'a>,
        body: &'a [u8],
    },
    // a command with its number for a mark, and the check if it has one
    Command {
        address: Address<'a>,
        mark: char,
        body: &'a [u8],
        check: Option<u8>,
    },
}

impl<'a> Message<'a> {
    // Who speaks.
    pub fn side(&self) -> Side
        ensures { side_of result ≡ (message_of self.now).side }
    {
        match self {
            Message::Command { .. } => Side::Command,
            Message::Answer { .. } | Message::Event { .. } => Side::Answer,
        }
    }

    pub fn address(&self) -> Address<'a>
        ensures { placed result ≡ (message_of self.now).address }
    {
        match self {
            Message::Answer { address, .. }
            | Message::Event { address, .. }
            | Message::Command { address, .. } => *address,
        }
    }

    pub fn mark(&self) -> char
        ensures { result ≡ (message_of self.now).mark }
    {
        match self {
            Message::Answer { mark, .. } | Message::Command { mark, .. } => *mark,
            Message::Event { .. } => '!',
        }
    }
}
