// The law over any run of calls on any port. It is stated over what each call of the trait promises, so every port meets it.
ghost use Rattle.port.specs.Runs.{KeptInOrder};

// With no hangup between: what was read so far, followed by In, is In at the start followed by what arrived;
// and what departed so far, followed by Out, is Out at the start followed by what was written.
pub fn bytes_are_kept()
    ensures { KeptInOrder }
{}
