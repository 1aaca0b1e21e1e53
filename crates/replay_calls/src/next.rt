// What follows from a line.
use calls::Opening;
use script::Answer;
use texts::CallAnswer;

// Three cases, so that it is no `Option`.
#[derive(Drop)]
pub enum Next {
    // A line of the packet layer is answered, or skipped.
    Layer(Option<Answer>),
    // A call of the proxy is answered.
    Call(CallAnswer),
    // A fresh proxy is opened in place of the one that stands, and says how many subscribers it has.
    Open(Opening),
}
