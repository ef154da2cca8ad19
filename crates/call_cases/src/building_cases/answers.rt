// Answers of calls.
use rules::types::Cause;

// The number of what a call has made, if it makes something, or the cause for which it is refused.
pub type Answer = Result<Option<u32>, Cause>;

// The answer is a refusal by this cause, and the store is the same as `kept`, its copy from before the call.
pub fn turned_down(answer: Answer, cause: Cause, store: &[u32], kept: &[u32]) -> bool {
    answer == Err(cause) && store == kept
}
