// What holds of requests, as statements on functions that do nothing.
ghost use Rattle.request.specs.Laws.{DigitUntold, Sends};

// Whether a request is refused, and by what, does not depend on its digit.
pub fn digit_is_untold()
    ensures { DigitUntold }
{}

// What a request means can be sent.
pub fn requests_can_be_sent()
    ensures { Sends }
{}
