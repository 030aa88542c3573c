//! Which transactions are those of the layers, which would break what they keep, and what is found, worked; and what
//! the books of a queue keep.
ghost use Rattle.fdb_layers.specs.BankExamples.{ThirtyIsPayment, SnapshotPaymentsFail, GiftsFail};
ghost use Rattle.fdb_layers.specs.BankExamples.{NoMoreIsRefused};
ghost use Rattle.fdb_layers.specs.CountersExamples.{OneIsAddition, LoneAdditionsFail};
ghost use Rattle.fdb_layers.specs.Handing.{ReceiptsHandOut, WorkedHanding};
ghost use Rattle.fdb_layers.specs.QueueBooks.{QueueBooksKeepTheirItems};
ghost use Rattle.fdb_layers.specs.QueueBooksExamples.{WorkedItems};
ghost use Rattle.fdb_layers.specs.QueueExamples.{EarlyIsPopped, JobIsPush, LateIsNotOldest, PushesHaveOwnKeys};
ghost use Rattle.fdb_layers.specs.QueueExamples.{UnstampedPushesFail};
ghost use Rattle.fdb_layers.specs.RollingExamples.{BothArrive, EarlyIsNotThere, LostIsNotThere};
ghost use Rattle.fdb_layers.specs.TableExamples.{PinkIsPut, ForgetfulPutsFail, OneListIsFound};
ghost use Rattle.fdb_layers.specs.TableExamples.{ValuesFindTheirRecords};

/// The calls of a put, one after another, are a transaction of the table, whatever the record held before. A put that
/// forgets to clear the index entry of the old value doesn't keep the index.
pub fn worked_table()
    ensures puts { PinkIsPut }
    ensures forgetful { ForgetfulPutsFail }
{}

/// What a value finds in a table is one list of IDs alone. Where ann and bob hold pink and cid holds blue, pink finds
/// ann and bob, blue finds cid, and mint finds nobody.
pub fn worked_finding()
    ensures alone { OneListIsFound }
    ensures finds { ValuesFindTheirRecords }
{}

/// The calls of a payment, one after another, are a transaction of the bank. A payment that reads the payer's account
/// by a snapshot doesn't keep the sum of all accounts, and one that sets the payee's account alone doesn't either.
/// Where the payer has as much as it is asked to pay, it can't be said that it isn't paid.
pub fn worked_bank()
    ensures pays { ThirtyIsPayment }
    ensures snapshots { SnapshotPaymentsFail }
    ensures gifts { GiftsFail }
    ensures refuses { NoMoreIsRefused }
{}

/// The calls that add one to both counters, one after another, are a transaction of theirs. An addition to one counter
/// alone doesn't keep them equal.
pub fn worked_counters()
    ensures adds { OneIsAddition }
    ensures lone { LoneAdditionsFail }
{}

/// The call of a push is a transaction of the queue, and so are those of a pop, which takes the item that was committed
/// first, and not the first one by key. No two transactions push under one key. A push with no stamp doesn't keep that
/// all in the queue begins with one.
pub fn worked_queue()
    ensures pushes { JobIsPush }
    ensures pops { EarlyIsPopped }
    ensures later { LateIsNotOldest }
    ensures apart { PushesHaveOwnKeys }
    ensures bare { UnstampedPushesFail }
{}

/// In a book of the queue's transactions each item is handed out once at the most, and only where it was pushed; none
/// is lost; and no two are pushed under one key.
pub fn queue_books_keep_their_items()
    ensures { QueueBooksKeepTheirItems }
{}

/// After a push its item waits, and no longer once it is taken. A book that takes it twice, or that takes what nobody
/// pushed, doesn't keep its items.
pub fn worked_items()
    ensures { WorkedItems }
{}

/// A receipt of a pop hands out the item that it popped: at the place of its transaction that item was taken, and it
/// waited until then.
pub fn receipts_hand_out()
    ensures { ReceiptsHandOut }
{}

/// Where session 0 pushes 7 and session 1 takes it, session 1 is handed 7 and no 8, and session 0 nothing.
pub fn worked_handing()
    ensures { WorkedHanding }
{}

/// What a closed database held is carried over once the next one has its pairs, however they got there: not before
/// that, and not where one is lost.
pub fn worked_rolling()
    ensures arrive { BothArrive }
    ensures early { EarlyIsNotThere }
    ensures lost { LostIsNotThere }
{}
