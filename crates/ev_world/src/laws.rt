//! Laws of the definitions that the crate's contracts cite. Each function has an empty body: its clause is the law.

ghost use Rattle.std.specs.Prelude.{◌≡◌, ◌+◌, [], ◌∷◌, ◌++◌, ℕ, List, None, Some};
ghost use Rattle.ev_world.specs.Calls.{unanswered};
ghost use Rattle.ev_world.specs.declared.authority.StampCall.{StampCall};

/// The count of an authority's faults is one more after a call without a reply.
pub fn a_call_without_a_reply_is_counted()
    ensures { (calls : List StampCall) (call : StampCall) → call.reply ≡ None → unanswered (calls ++ call ∷ []) ≡ unanswered calls + 1 }
{}

/// It stays after a call with one.
pub fn a_call_with_a_reply_is_no_fault()
    ensures { (calls : List StampCall) (call : StampCall) (reply : List ℕ) → call.reply ≡ Some reply → unanswered (calls ++ call ∷ []) ≡ unanswered calls }
{}
