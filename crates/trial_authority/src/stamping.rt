// A stamp by the key, over its indexes.
ghost use Rattle.std.specs.Prelude.{◌≡◌, ◌+◌, ◌≤◌, ◌<◌, ℕ, List, Some, None, false, IsTrue, IsErrOf, IfOk, IfErr, OnOk};
ghost use Rattle.hash_kit.specs.declared.algorithm.HashAlg.{HashAlg};
ghost use Rattle.ev_world.specs.Causes.{Rose};
ghost use Rattle.ev_world.specs.Disk.{LeavesOnly};
ghost use Rattle.key_state.specs.Keys.{IsKeyStateFormatted};
ghost use Rattle.key_state.specs.View.{IsState};
ghost use Rattle.tst_info.specs.Request.{request_seen};
ghost use Rattle.trial_authority.specs.Key.{trial_key, leaves};
ghost use Rattle.trial_authority.specs.Reply.{Asks, Grants, rejection};
ghost use Rattle.trial_authority.specs.Stamping.{IsMarkedTo, Answers, Breaks, Wants, IsStamped};
ghost use Rattle.trial_authority.specs.Inside.{IsHeld, IsRefusal, IsNoDiskFault, Keeps, Gives};
ghost use Rattle.trial_authority.specs.Stamping.{opened_of, disk_of, state_of};

use crate::asked::stampable;
use crate::indexes::{Indexes, opened};
use crate::reply::{granted, rejected};
use civil_moment::Moment;
use ev_world::{Disk, StampFault};
use key_state::{KeyState, StateFault};
use lms_sign::HssKey;
use std::alloc::{AllocError, Global};
use tst_info::StampRequest;

/// What is to be stamped, by which key.
#[derive(Clone, Copy)]
pub(crate) struct Call<'a> {
    pub(crate) alloc: Global,
    pub(crate) key: &'a HssKey,
    pub(crate) now: Moment,
    pub(crate) request: &'a [u8],
}

/// Stamps by the next index. The state is opened first, where it isn't open yet.
pub(crate) fn stamped<B: Disk>(
    indexes: Indexes<B>,
    call: Call<'_>,
) -> (Indexes<B>, Result<Vec<u8>, StampFault>)
    requires key { call.key.now ≡ trial_key call.key.now.seed }
    requires held { IsHeld B.tells B.reads B.images indexes }
    ensures held { IsHeld B.tells B.reads B.images result.0 }
    ensures stamped { IsStamped B.tells B.reads B.images B.clock B.since B.faults call.entry.key.now.seed (disk_of indexes) (state_of indexes) (disk_of result.0) (state_of result.0)
        call.entry.now call.entry.request.now result.1 }
{
    match indexes {
        Indexes::Open(state) => stamped_by(state, call),
        Indexes::Unopened(disk) => stamped_on(disk, call),
    }
}

// Opens the state of a disk, and stamps.
fn stamped_on<B: Disk>(disk: B, call: Call<'_>) -> (Indexes<B>, Result<Vec<u8>, StampFault>)
    requires key { call.key.now ≡ trial_key call.key.now.seed }
    ensures held { IsHeld B.tells B.reads B.images result.0 }
    ensures answers { IfOk result.1 (λ reply. Answers B.tells B.reads call.entry.key.now.seed disk None (state_of result.0) call.entry.now call.entry.request.now reply.items) }
    ensures failed { IsErrOf result.1 StampFault.Failed → Rose (B.faults disk) (B.faults (disk_of result.0)) }
    ensures breaks { IsErrOf result.1 StampFault.Failed → Breaks None (state_of result.0) }
    ensures untouched { state_of result.0 ≡ None → IsTrue B.tells → IsKeyStateFormatted (B.reads disk) → B.reads (disk_of result.0) ≡ B.reads disk }
    ensures later { B.faults disk ≤ B.faults (disk_of result.0) }
    ensures any_moment { (n : ℕ) → IsTrue B.tells → ((c : List ℕ) → B.images disk c → IsMarkedTo n c)
        → LeavesOnly B.clock B.since disk (disk_of result.0) (IsMarkedTo n) }
{
    match opened(call.alloc, disk) {
        Ok(state) => stamped_by(state, call),
        Err((disk, fault)) => (Indexes::Unopened(disk), refused(call.alloc, fault)),
    }
}

// Stamps by the next index of an open state.
fn stamped_by<B: Disk>(
    state: KeyState<B>,
    call: Call<'_>,
) -> (Indexes<B>, Result<Vec<u8>, StampFault>)
    requires key { call.key.now ≡ trial_key call.key.now.seed }
    requires leaves { state.leaves ≡ leaves }
    requires held { IsTrue B.tells → IsState (B.reads state.disk) (B.images state.disk) leaves state.next state.broken }
    ensures held { IsHeld B.tells B.reads B.images result.0 }
    ensures answers { IfOk result.1 (λ reply. Gives call.entry.key.now.seed (opened_of state) (state_of result.0) call.entry.now call.entry.request.now reply.items) }
    ensures failed { IsErrOf result.1 StampFault.Failed → Rose (B.faults state.disk) (B.faults (disk_of result.0)) }
    ensures open { (state_of result.0 ≡ None) → ⊥ }
    ensures breaks { IsErrOf result.1 StampFault.Failed → Breaks (Some (opened_of state)) (state_of result.0) }
    ensures wants { IsErrOf result.1 StampFault.Memory → Wants (Some (opened_of state)) (state_of result.0) }
    ensures later { B.faults state.disk ≤ B.faults (disk_of result.0) }
    ensures any_moment { (n : ℕ) → IsTrue B.tells → ((c : List ℕ) → B.images state.disk c → IsMarkedTo n c)
        → LeavesOnly B.clock B.since state.disk (disk_of result.0) (IsMarkedTo n) }
{
    let mut state = state;
    let answer = given(&mut state, call);
    (Indexes::Open(state), answer)
}

fn given<B: Disk>(state: &mut KeyState<B>, call: Call<'_>) -> Result<Vec<u8>, StampFault>
    requires key { call.key.now ≡ trial_key call.key.now.seed }
    requires leaves { state.old.leaves ≡ leaves }
    requires held { IsTrue B.tells → IsState (B.reads state.old.disk) (B.images state.old.disk) leaves state.old.next state.old.broken }
    ensures leaves { state.new.leaves ≡ leaves }
    ensures held { IsTrue B.tells → IsState (B.reads state.new.disk) (B.images state.new.disk) leaves state.new.next state.new.broken }
    ensures answers { IfOk result (λ reply. Gives call.entry.key.now.seed (opened_of state.old) (Some (opened_of state.new)) call.entry.now call.entry.request.now reply.items) }
    ensures failed { IsErrOf result StampFault.Failed → Rose (B.faults state.old.disk) (B.faults state.new.disk) }
    ensures breaks { IsErrOf result StampFault.Failed → Breaks (Some (opened_of state.old)) (Some (opened_of state.new)) }
    ensures wants { IsErrOf result StampFault.Memory → Wants (Some (opened_of state.old)) (Some (opened_of state.new)) }
    ensures later { B.faults state.old.disk ≤ B.faults state.new.disk }
    ensures any_moment { (n : ℕ) → IsTrue B.tells → ((c : List ℕ) → B.images state.old.disk c → IsMarkedTo n c)
        → LeavesOnly B.clock B.since state.old.disk state.new.disk (IsMarkedTo n) }
{
    let Some(asked) = stampable(call.request) else {
        return rejection(call.alloc);
    };
    match next(state) {
        Ok(index) => signed(call, index, &asked),
        Err(fault) => refused(call.alloc, fault),
    }
}

// Takes the next index.
fn next<B: Disk>(state: &mut KeyState<B>) -> Result<u32, StateFault>
    requires held { IsTrue B.tells → IsState (B.reads state.old.disk) (B.images state.old.disk) state.old.leaves state.old.next state.old.broken }
    ensures leaves { state.new.leaves ≡ state.old.leaves }
    ensures held { IsTrue B.tells → IsState (B.reads state.new.disk) (B.images state.new.disk) state.new.leaves state.new.next state.new.broken }
    ensures index { IfOk result (λ i. i ≡ state.old.next) }
    ensures whole { OnOk result (state.old.broken ≡ false) }
    ensures left { OnOk result (state.old.next < state.old.leaves) }
    ensures used { OnOk result (opened_of state.new ≡ record { next = state.old.next + 1; broken = false }) }
    ensures fault { IfErr result (λ e. Keeps (opened_of state.old) (opened_of state.new) state.old.leaves e) }
    ensures failed { IsErrOf result StateFault.DiskFault → Rose (B.faults state.old.disk) (B.faults state.new.disk) }
    ensures later { B.faults state.old.disk ≤ B.faults state.new.disk }
    ensures any_moment { (n : ℕ) → IsTrue B.tells → ((c : List ℕ) → B.images state.old.disk c → IsMarkedTo n c)
        → LeavesOnly B.clock B.since state.old.disk state.new.disk (IsMarkedTo n) }
{
    state.reserve()
}

// The reply that grants.
fn signed(call: Call<'_>, index: u32, asked: &StampRequest<'_>) -> Result<Vec<u8>, StampFault>
    requires key { call.key.now ≡ trial_key call.key.now.seed }
    requires index { index < leaves }
    requires asked { (alg : HashAlg) × Asks call.request.now (request_seen asked.now) alg }
    ensures grants { IfOk result (λ reply. Grants call.entry.key.now.seed index call.entry.now (request_seen asked.now) reply.items) }
    ensures memory { IfErr result (λ e. e ≡ StampFault.Memory) }
{
    match granted(call.alloc, call.key, index, call.now, asked, call.request) {
        Ok(reply) => Ok(reply),
        Err(AllocError) => Err(StampFault::Memory),
    }
}

// The reply that rejects.
fn rejection(alloc: Global) -> Result<Vec<u8>, StampFault>
    ensures is { IfOk result (λ reply. reply.items ≡ rejection) }
    ensures memory { IfErr result (λ e. e ≡ StampFault.Memory) }
{
    match rejected(alloc) {
        Ok(reply) => Ok(reply),
        Err(AllocError) => Err(StampFault::Memory),
    }
}

// What is answered where the state gives no index.
fn refused(alloc: Global, fault: StateFault) -> Result<Vec<u8>, StampFault>
    ensures is { IfOk result (λ reply. (reply.items ≡ rejection) × IsRefusal fault) }
    ensures failed { IsErrOf result StampFault.Failed → fault ≡ StateFault.DiskFault }
    ensures memory { IsErrOf result StampFault.Memory → IsNoDiskFault fault }
{
    match fault {
        StateFault::DiskFault => Err(StampFault::Failed),
        StateFault::Memory => Err(StampFault::Memory),
        _ => rejection(alloc),
    }
}
