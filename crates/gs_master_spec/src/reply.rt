use gs_base::Refusal;
use gs_msg::Answer;

/// The last reply to a client, and the number of its request.
#[derive(Debug, Drop)]
pub struct KeptReply {
    pub number: u64,
    pub result: Result<Answer, Refusal>,
}
