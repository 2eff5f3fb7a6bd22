//! Laws of the definitions that the crate's contracts cite. Each function has an empty body: its clause is the law.

ghost use Rattle.std.specs.Prelude.{◌≡◌, ◌<◌, ◌≤◌, ◌^◌, ℕ, List, length, slice_index, Option, None, IfSome};
ghost use Rattle.civil_moment.specs.declared.moment.Moment.{Moment};
ghost use Rattle.tst_info.specs.Info.{Tst, ReadsTst, tst_first_fault, WritesTst, HasTstSpelling};
ghost use Rattle.tst_info.specs.Request.{ToStamp, ReadsRequest, request_first_fault, request_contents, request_text, HasRequestSpelling};
ghost use Rattle.tst_info.specs.Response.{ReadsResponse, response_first_fault, response_contents, response_text, IsToken, answer_to, Answers};

/// No bytes are two infos.
pub fn no_bytes_are_two_infos()
    ensures { (bytes : List ℕ) (a b : Tst Moment) → ReadsTst bytes a → ReadsTst bytes b → a ≡ b }
{}

/// No bytes are two requests.
pub fn no_bytes_are_two_requests()
    ensures { (bytes : List ℕ) (a b : ToStamp) → ReadsRequest bytes a → ReadsRequest bytes b → a ≡ b }
{}

/// No bytes are responses with two tokens.
pub fn no_bytes_are_two_responses()
    ensures { (bytes a b : List ℕ) → ReadsResponse bytes a → ReadsResponse bytes b → a ≡ b }
{}

/// Every string of bytes is an info or has a first fault.
pub fn bytes_without_a_first_fault_are_an_info()
    ensures { (bytes : List ℕ) → ((i : ℕ) → slice_index bytes i < 256) → tst_first_fault bytes ≡ None → (t : Tst Moment) × ReadsTst bytes t }
{}

/// Every string of bytes is a request or has a first fault.
pub fn bytes_without_a_first_fault_are_a_request()
    ensures { (bytes : List ℕ) → ((i : ℕ) → slice_index bytes i < 256) → request_first_fault bytes ≡ None → (q : ToStamp) × ReadsRequest bytes q }
{}

/// Every string of bytes is a response that grants a token or has a first fault.
pub fn bytes_without_a_first_fault_are_a_response()
    ensures { (bytes : List ℕ) → ((i : ℕ) → slice_index bytes i < 256) → response_first_fault bytes ≡ None → (token : List ℕ) × ReadsResponse bytes token }
{}

/// An info is written in one way.
pub fn no_info_is_written_twice()
    ensures { (a b : List ℕ) (parts : Tst Moment) → WritesTst a parts → WritesTst b parts → a ≡ b }
{}

/// A written info is read again.
pub fn a_written_info_is_read_again()
    ensures { (bytes : List ℕ) (parts : Tst Moment) → HasTstSpelling parts → WritesTst bytes parts → ReadsTst bytes parts }
{}

/// A written request is read again.
pub fn a_written_request_is_read_again()
    ensures { (parts : ToStamp) → HasRequestSpelling parts → ReadsRequest (request_text parts) parts }
{}

/// A request that was read can be written, with contents that are no longer than its bytes.
pub fn a_read_request_can_be_written()
    ensures spelling { (bytes : List ℕ) (parts : ToStamp) → ReadsRequest bytes parts → HasRequestSpelling parts }
    ensures length { (bytes : List ℕ) (parts : ToStamp) → ReadsRequest bytes parts → length (request_contents parts) ≤ length bytes }
{}

/// A written response is read as its token where it grants one, and else refused for its status or for want of one.
pub fn a_written_response_is_answered()
    ensures { (status : ℕ) (token : Option (List ℕ)) → status ≤ 127 → IfSome token IsToken → length (response_contents status token) < 2 ^ 32 → Answers (response_text status token) (answer_to status token) }
{}
