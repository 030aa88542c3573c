// What transactions of layers take on a running database, beside the same reads and writes by bare calls of a session.
mod form;
mod queue;
mod rounds;
mod running;
mod table;

use crate::layers::form::Took;
use crate::layers::queue::{BareQueue, WorkedQueue};
use crate::layers::table::{BareTable, WorkedTable};
use crate::numbers::Fault;
use std::alloc::Global;
use std::sync::Wait;
use std::thread::Threads;
use std::time::Clock;

/// How long a layer's transactions take in both forms.
#[derive(Clone, Copy)]
pub(crate) struct Beside {
    /// By the layer's work.
    pub(crate) by_work: Took,
    /// By bare calls.
    pub(crate) bare: Took,
}

/// How long it takes to push so many items on a queue, and to pop as many.
pub(crate) fn measure_queue<R: Threads + Wait + Clock + Copy + Send + Sync + 'static>(
    rt: &R,
    alloc: Global,
    transactions: u32,
) -> Result<Beside, Fault> {
    let by_work = running::measure::<WorkedQueue, _, R>(rt, alloc, transactions)?;
    let bare = running::measure::<BareQueue, _, R>(rt, alloc, transactions)?;
    compared(by_work, bare, transactions)
}

/// How long it takes to put so many records into a table, each of which had another value, and to find as many values.
pub(crate) fn measure_table<R: Threads + Wait + Clock + Copy + Send + Sync + 'static>(
    rt: &R,
    alloc: Global,
    transactions: u32,
) -> Result<Beside, Fault> {
    let by_work = running::measure::<WorkedTable, _, R>(rt, alloc, transactions)?;
    let bare = running::measure::<BareTable, _, R>(rt, alloc, transactions)?;
    compared(by_work, bare, transactions)
}

// Both forms, if they got as much as each other, and something in each transaction.
fn compared(by_work: Took, bare: Took, transactions: u32) -> Result<Beside, Fault> {
    if by_work.got != bare.got || by_work.got < transactions as usize {
        return Err(Fault::NotGot);
    }
    Ok(Beside { by_work, bare })
}
