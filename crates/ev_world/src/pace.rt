/// Told how far the clients of an archive are, so that a test can hold them back. It has no answer and no fault.
/// `who` is a client's number from 1, and 0 for the worker.
pub trait Pace {
    /// The client comes to its next request.
    fn before_request(&self, who: u32);

    /// The client's request was answered.
    fn answered(&self, who: u32);

    /// An authority is about to be asked.
    fn before_stamp(&self, who: u32);
}
