// A ticket of an accepted command. It can be neither copied nor let go: only the link's settle takes it back.
ghost use Rattle.std.specs.Prelude.{◌≡◌};

pub struct Ticket {
    // the number of the link that it came from
    pub(crate) link: u16,
    pub(crate) number: u8,
}

impl Ticket {
    // The number that the command has, 0 to 9.
    pub fn number(&self) -> u8
        ensures { result ≡ self.now.number }
    {
        self.number
    }
}
