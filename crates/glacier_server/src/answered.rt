// What is answered to a message.
use glacier_http::Reply;
use glacier_machine::Output;

/// What is answered to a message.
#[derive(Drop)]
pub struct Answered {
    pub reply: Reply,
    /// The output whose bytes are the reply's body. Where there is none, the reply has its body itself.
    pub output: Option<Output>,
}
