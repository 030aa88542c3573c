// Calls with known answers.
ghost use Rattle.std.specs.Prelude.{◌≡◌};

use crate::asserting::same;
use fdb_book::laws::fronts_are_books;
use fdb_book::{Blank, Book, BookName, Found, Front, agree, append, append_and_share, empty};
use fdb_keys::{Items, RangeSet, Refusal, Refused};
use fdb_making::{ask, ask_both, ask_mut, code_of, numbers_of, push, seal, shared};
use fdb_txn::{Batch, Entry, PLACE_LIMIT, TxnId};
use std::alloc::Global;
use std::cmp::Ordering;
use std::marker::Brand;
use std::process::Abort;
use std::test::Fail;
use std::thread;
use std::thread::Threads;

// The numbers of a refusal, zeros where there is none, and how many entries the front that is handed out shows.
type Told = (u32, u64, Option<usize>);

// An append: the front that it is made to, by its number among those that were handed out before, of which 0 is the
// empty one; the entry's version, its previous version, its transactions' read version and its horizon; the session and
// the number of each of these, none of which writes; what is told.
type Append = (usize, [u64; 4], &'static [(u32, u64)], Told);

// A front by its number: its version, the appends whose entries it shows by theirs, and how it agrees with another one.
type Shown = (usize, u64, &'static [usize], (usize, Ordering));

const OF_TWO: [Append; 9] = [
    (0, [100, 0, 0, 0], &[(0, 0)], (0, 0, Some(1))),
    // It doesn't follow on the front.
    (1, [200, 50, 100, 0], &[(0, 1)], (9010, 0, None)),
    (1, [200, 100, 100, 0], &[(0, 0)], (9007, 0, None)),
    // Its read version isn't below its own.
    (1, [200, 100, 200, 0], &[(0, 1)], (9010, 0, None)),
    // Another entry stands in the cell, and then an equal one.
    (0, [100, 0, 0, 0], &[(0, 1)], (9011, 0, Some(1))),
    (0, [100, 0, 0, 0], &[(0, 0)], (0, 0, Some(1))),
    (1, [200, 100, 100, 0], &[(0, 1)], (0, 0, Some(2))),
    // The book is full, which is told after what is wrong with the entry.
    (4, [300, 200, 200, 0], &[(0, 2)], (9006, 0, None)),
    (4, [300, 200, 200, 0], &[(0, 0)], (9007, 0, None)),
];

// The right entry is appended after refusals.
const AFTER_REFUSALS: [Append; 4] = [
    (0, [100, 0, 0, 0], &[(7, 3), (7, 3)], (9007, 1, None)),
    (0, [100, 0, 0, 0], &[], (0, 0, Some(1))),
    (0, [100, 0, 0, 0], &[(0, 0)], (9011, 0, Some(1))),
    (2, [200, 100, 100, 0], &[(0, 0)], (0, 0, Some(2))),
];

// Appends to one front of a book of three, which goes on by those that aren't refused: the entry's version, its
// previous version, its read version and its horizon; the ids; the refusal's numbers, zeros where there is none; how
// many entries the front shows then, and the horizon of the last one.
type GoneOn = ([u64; 4], &'static [(u32, u64)], (u32, u64), (usize, u64));

const ONE_FRONT: &[GoneOn] = &[
    ([100, 0, 0, 0], &[(0, 4), (1, 0)], (0, 0), (1, 0)),
    ([200, 0, 100, 0], &[(0, 5)], (9010, 0), (1, 0)),
    ([200, 100, 100, 0], &[(2, 0), (1, 0)], (9007, 1), (1, 0)),
    // The horizon isn't below the version.
    ([200, 100, 100, 200], &[(2, 0)], (9010, 0), (1, 0)),
    // The other id of the refused entry isn't there yet.
    ([200, 100, 100, 199], &[(2, 0)], (0, 0), (2, 199)),
    // The horizon falls.
    ([300, 200, 200, 198], &[(0, 3), (1, 1)], (9010, 0), (2, 199)),
    ([300, 200, 200, 199], &[(3, 1), (3, 1)], (9007, 1), (2, 199)),
    // A lesser number of a session is as good as a greater one, where it isn't there yet.
    ([300, 200, 200, 199], &[(0, 3), (1, 1)], (0, 0), (3, 199)),
    ([400, 300, 300, 199], &[(4, 0)], (9006, 0), (3, 199)),
    ([400, 300, 300, 199], &[(0, 3)], (9007, 0), (3, 199)),
    ([400, 200, 300, 199], &[(4, 0)], (9010, 0), (3, 199)),
];

const CAPACITIES: &[(u32, u32)] = &[(0, 9009), (1, 0), (1_048_577, 9009)];

// Books of two cells, each with what is appended and what the fronts show then.
const BOOKS: &[(&[Append], &[Shown])] = &[
    (
        &OF_TWO,
        &[
            (0, 0, &[], (1, Ordering::Less)),
            (1, 100, &[0], (4, Ordering::Less)),
            (4, 200, &[0, 6], (1, Ordering::Greater)),
        ],
    ),
    (
        &AFTER_REFUSALS,
        &[
            (1, 100, &[1], (2, Ordering::Equal)),
            (3, 200, &[1, 3], (1, Ordering::Greater)),
        ],
    ),
];

// The entry of a version, a previous version, a read version and a horizon, with a transaction without a write for each
// id.
fn entry_of(alloc: Global, numbers: [u64; 4], ids: &[(u32, u64)]) -> Result<Entry, Refusal> {
    let [version, prev, read_version, horizon] = numbers;
    let mut places = Items::new(alloc);
    for (session, number) in ids {
        let id = TxnId {
            session: *session,
            number: *number,
        };
        let (reads, writes) = (RangeSet::new(alloc), RangeSet::new(alloc));
        push(
            &mut places,
            seal(alloc, id, read_version, reads, writes, Items::new(alloc))?,
        )?;
    }
    if places.len() > PLACE_LIMIT {
        return Err(Refusal::BookFull);
    }
    let places = shared(alloc, places)?;
    Ok(Entry {
        version,
        prev,
        horizon,
        moves: shared(alloc, Items::new(alloc))?,
        batch: Batch::new(places),
    })
}

// The front one longer by the entry that was found, where there is one and it ends with that entry.
fn front_found<B: BookName>(book: &Book<B>, found: Option<Found<B>>) -> Option<Front<B>> {
    let found = found?;
    let entry = found.entry(book);
    let front = found.into_front()?;
    let last = front.len().checked_sub(1)?;
    if front.entry(last) == Some(entry) {
        Some(front)
    } else {
        None
    }
}

// The refusal's numbers, and the front that is handed out.
fn handed_out<B: BookName>(
    book: &Book<B>,
    answer: Result<Front<B>, Refused<Option<Found<B>>>>,
) -> ((u32, u64), Option<Front<B>>) {
    match answer {
        Ok(front) => ((0, 0), Some(front)),
        Err(refused) => (numbers_of(refused.why), front_found(book, refused.back)),
    }
}

// Appends to a share of the front, and gives the share of that.
fn share_of<B: BookName>(
    alloc: Global,
    book: &Book<B>,
    front: &Front<B>,
    entry: Entry,
) -> Result<Front<B>, Refused<Option<Found<B>>>> {
    match front.share() {
        Ok(mut longer) => append_and_share(alloc, book, &mut longer, entry),
        Err(why) => Err(Refused { why, back: None }),
    }
}

// Appends, and where shares are asked for gives the share in the place of the longer front.
fn append_by<B: BookName>(
    alloc: Global,
    book: &Book<B>,
    front: &Front<B>,
    entry: Entry,
    shares: bool,
) -> ((u32, u64), Option<Front<B>>) {
    if shares {
        handed_out(book, share_of(alloc, book, front, entry))
    } else {
        handed_out(book, append(alloc, book, front, entry))
    }
}

// Appends to the row's front, and adds the front that is handed out to the others.
fn append_to<B: BookName>(
    alloc: Global,
    book: &Book<B>,
    fronts: &mut Items<Front<B>>,
    row: &Append,
    shares: bool,
) -> Result<Told, Refusal> {
    let ((code, number), longer) = match fronts.as_slice().get(row.0) {
        Some(front) => append_by(alloc, book, front, entry_of(alloc, row.1, row.2)?, shares),
        None => return Err(Refusal::Unknown),
    };
    match longer {
        Some(longer) => {
            let len = longer.len();
            push(fronts, longer)?;
            Ok((code, number, Some(len)))
        }
        None => Ok((code, number, None)),
    }
}

fn len_of<B: BookName>(front: Result<Front<B>, Refusal>) -> Result<usize, u32> {
    ask(front, |front| front.len())
}

// The entries of the appends with these numbers.
fn entries_of(alloc: Global, rows: &[Append], numbers: &[usize]) -> Result<Vec<Entry>, Refusal> {
    let mut entries = Items::new(alloc);
    for number in numbers {
        if let Some(row) = rows.get(*number) {
            push(&mut entries, entry_of(alloc, row.1, row.2)?)?;
        }
    }
    Ok(entries.into_vec())
}

// Whether the front shows just the entries, each by its number.
fn shows_each<B: BookName>(front: &Front<B>, entries: &[Entry]) -> bool {
    for (index, entry) in entries.iter().enumerate() {
        if front.entry(index) != Some(entry) {
            return false;
        }
    }
    front.entry(entries.len()).is_none()
}

// The same, and as a list.
fn shows<B: BookName>(front: &Front<B>, entries: Result<Vec<Entry>, Refusal>) -> Result<bool, u32> {
    ask_both(front.entries(), entries, |list, entries| {
        list.as_slice() == entries.as_slice() && shows_each(front, entries.as_slice())
    })
}

// How many entries the front shows, also once it is cut or shared, its version, how it agrees with the other front, and
// whether it shows the entries.
fn told_of<B: BookName>(
    alloc: Global,
    fronts: &[Front<B>],
    rows: &[Append],
    shown: &Shown,
) -> Option<([Result<usize, u32>; 3], u64, Ordering, Result<bool, u32>)> {
    let front = fronts.get(shown.0)?;
    let other = fronts.get(shown.3.0)?;
    let lens = [Ok(front.len()), len_of(front.cut(0)), len_of(front.share())];
    let shows = shows(front, entries_of(alloc, rows, shown.2));
    Some((lens, front.version(), agree(front, other), shows))
}

// Goes through the appends to the book, and then through what its fronts show.
fn play<B: BookName>(
    rt: &impl Abort,
    alloc: Global,
    book: &Book<B>,
    fronts: &mut Items<Front<B>>,
    of: (&[Append], &[Shown]),
    shares: bool,
) {
    let (rows, shown) = of;
    for row in rows {
        same(rt, append_to(alloc, book, fronts, row, shares), Ok(row.3));
    }
    for row in shown {
        let count = row.2.len();
        let wanted = ([Ok(count), Ok(0), Ok(count)], row.1, row.3.1, Ok(true));
        same(
            rt,
            told_of(alloc, fronts.as_slice(), rows, row),
            Some(wanted),
        );
    }
    fronts_are_books();
}

// The empty front alone.
fn first_front<B: BookName>(alloc: Global, book: &Book<B>) -> Result<Items<Front<B>>, Refusal> {
    let mut fronts = Items::new(alloc);
    push(&mut fronts, empty(alloc, book)?)?;
    Ok(fronts)
}

fn fill_book<B: BookName>(
    rt: &impl Abort,
    alloc: Global,
    blank: Blank,
    of: (&[Append], &[Shown]),
    shares: bool,
)
    requires { blank ≡ B.cells }
{
    let book = Book::<B>::open(blank);
    let played = ask_mut(
        first_front(alloc, &book),
        |fronts| play(rt, alloc, &book, fronts, of, shares),
    );
    same(rt, played, Ok(()));
}

#[test]
fn entries_are_appended_to_books_of_two(rt: HostRuntime) -> Result<(), Fail> {
    let alloc = rt.alloc();
    for of in BOOKS {
        fill_book::<Brand>(&rt, alloc, Blank::new(alloc, 2)?, *of, false);
        fill_book::<Brand>(&rt, alloc, Blank::new(alloc, 2)?, *of, true);
    }
    Ok(())
}

// Appends to the front itself. Says the refusal's numbers, how many entries the front shows then, the horizon of the
// last one, and how the front agrees with its share, if there is one.
fn go_on_itself<B: BookName>(
    alloc: Global,
    book: &Book<B>,
    front: &mut Front<B>,
    row: &GoneOn,
) -> Result<((u32, u64), (usize, u64), Option<Ordering>), Refusal> {
    let entry = entry_of(alloc, row.0, row.1)?;
    let (numbers, share) = handed_out(book, append_and_share(alloc, book, front, entry));
    let agreed = share.map(|share| agree(front, &share));
    Ok((numbers, (front.len(), front.horizon()), agreed))
}

fn fill_by_one_front<B: BookName>(rt: &impl Abort, alloc: Global, blank: Blank)
    requires { blank ≡ B.cells }
{
    let book = Book::<B>::open(blank);
    let played = ask_mut(empty(alloc, &book), |front| {
        for row in ONE_FRONT {
            let agreed = if row.2.0 == 0 {
                Some(Ordering::Equal)
            } else {
                None
            };
            same(
                rt,
                go_on_itself(alloc, &book, front, row),
                Ok((row.2, row.3, agreed)),
            );
        }
    });
    same(rt, played, Ok(()));
}

#[test]
fn a_front_goes_on_by_itself(rt: HostRuntime) -> Result<(), Fail> {
    let alloc = rt.alloc();
    fill_by_one_front::<Brand>(&rt, alloc, Blank::new(alloc, 3)?);
    Ok(())
}

#[test]
fn books_have_from_one_to_1_048_576_cells(rt: HostRuntime) {
    for (count, code) in CAPACITIES {
        same(
            &rt,
            (*count, code_of(Blank::new(rt.alloc(), *count))),
            (*count, *code),
        );
    }
}

// Appends a session's entry, or finds another one.
fn go_on<B: BookName>(
    alloc: Global,
    book: &Book<B>,
    front: &Front<B>,
    session: u32,
    index: u32,
) -> Result<Front<B>, Refusal> {
    let prev = u64::from(index) * 100;
    let ids = [(session, u64::from(index))];
    match append(
        alloc,
        book,
        front,
        entry_of(alloc, [prev + 100, prev, prev, 0], &ids)?,
    ) {
        Ok(longer) => Ok(longer),
        Err(refused) => front_found(book, refused.back).ok_or(refused.why),
    }
}

// Appends a session's entries, or goes on with those that were found, until there are as many.
fn go_through<B: BookName>(
    alloc: Global,
    book: &Book<B>,
    session: u32,
    count: u32,
) -> Result<Front<B>, Refusal> {
    let mut front = empty(alloc, book)?;
    for index in 0..count {
        front = go_on(alloc, book, &front, session, index)?;
    }
    Ok(front)
}

// Two sessions append to one book at once, and one goes further.
fn race<B: BookName + Send + Sync, R: Threads + Sync>(
    rt: &R,
    alloc: Global,
    book: &Book<B>,
) -> (Result<Front<B>, Refusal>, Result<Front<B>, Refusal>) {
    thread::join(
        rt,
        move || go_through(alloc, book, 0, 100),
        move || go_through(alloc, book, 1, 60),
    )
}

// How many entries one front shows, how it agrees with another one, and how it does and whether both show the same once
// it is cut to 60 entries.
type Compared = (usize, Ordering, Result<(Ordering, Result<bool, u32>), u32>);

fn told_of_both<B: BookName>(first: &Front<B>, second: &Front<B>) -> Compared {
    let begun = if first.len() < 60 {
        Err(0)
    } else {
        ask(
            first.cut(60),
            |begun| (agree(begun, second), shows(begun, second.entries())),
        )
    };
    (first.len(), agree(first, second), begun)
}

// The same of fronts that were made.
fn compare<B: BookName>(
    first: Result<Front<B>, Refusal>,
    second: Result<Front<B>, Refusal>,
) -> Result<Compared, u32> {
    match (first, second) {
        (Ok(first), Ok(second)) => Ok(told_of_both(&first, &second)),
        (Err(why), _) | (_, Err(why)) => Err(why.code()),
    }
}

fn race_for_cells<B: BookName + Send + Sync, R: Threads + Sync + Abort>(
    rt: &R,
    alloc: Global,
    blank: Blank,
)
    requires { blank ≡ B.cells }
{
    let book = Book::<B>::open(blank);
    let (first, second) = race(rt, alloc, &book);
    let told = compare(first, second);
    same(
        rt,
        told,
        Ok((100, Ordering::Greater, Ok((Ordering::Equal, Ok(true))))),
    );
}

#[test]
fn fronts_of_two_threads_agree(rt: HostRuntime) -> Result<(), Fail> {
    let blank = Blank::new(rt.alloc(), 100)?;
    race_for_cells::<Brand, HostRuntime>(&rt, rt.alloc(), blank);
    Ok(())
}
