//! Calls whose requests for memory are refused, one after the other or all.

/// More than the requests of any calls that are refused memory in turn.
pub const MANY: u64 = 2000;

/// Refuses one request of some calls after the other: the body of a function that returns how many were refused before the calls
/// met none.
///
/// `$answer` makes the calls on new values: `None` if one of them ran out of memory. One must do so exactly if a request was
/// refused; otherwise the function returns `None`.
#[macro_export]
macro_rules! in_turn {
    ($heap:ident: $answer:expr) => {{
        for n in 0..$crate::MANY {
            $heap.refuse(n);
            let is_done = $answer.is_some();
            let met = $heap.relent(n);
            if met == is_done {
                return None;
            }
            if is_done {
                return Some(n);
            }
        }
        None
    }};
}

/// Returns the value of an expression that is evaluated while each request for memory is refused.
///
/// If the expression makes a request all the same, the calling function returns `None`.
#[macro_export]
macro_rules! unasked {
    ($heap:ident: $answer:expr) => {{
        $heap.refuse(0);
        let answer = $answer;
        if $heap.relent(0) {
            return None;
        }
        answer
    }};
}
