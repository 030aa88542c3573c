// A read of a range: the pairs of a snapshot's pages and a transaction's own writes, side by side.
ghost use Rattle.std.specs.Prelude.{◌≡◌, ◌∷◌, ◌++◌, ◌-◌, ◌<◌, [], None, Some, IfSome, OnOk, IsTrue, is_some, length};
ghost use Rattle.std.specs.Prelude.{not, true, false, unwrap_or};
ghost use Rattle.std.specs.Option.{option_copied};
ghost use Rattle.fdb_keys.specs.Answers.{Answers};
ghost use Rattle.fdb_keys.specs.Cutting.{range_behind};
ghost use Rattle.fdb_keys.specs.Ranges.{Range, in_range};
ghost use Rattle.fdb_keys.specs.Texts.{is_key};
ghost use Rattle.fdb_mutations.specs.Maps.{Map};
ghost use Rattle.fdb_mutations.specs.Pairs.{is_limit_reached};
ghost use Rattle.fdb_mutations.specs.PairLaws.{given_of, pair_of};
ghost use Rattle.fdb_client.specs.LeftAt.{left_at, HasLegalKeys, HasNoEntry};
ghost use Rattle.fdb_client.specs.Merging.{HasFirst, HasNoValue, IsCopyOf, IsFirstOwn, IsWithin, LiesIn, ReadsOn};
ghost use Rattle.fdb_client.specs.Merging.{ReadsPage, TookOwn, TookPage, ahead_of};
ghost use Rattle.fdb_client.specs.OwnWalk.{IsAt, in_order, is_ahead, key_of, left_of, to_come};
ghost use Rattle.fdb_client.specs.OwnWrites.{value_over};
ghost use Rattle.fdb_client.specs.Pages.{IsPage};

use crate::left::Kept;
use crate::own_walk::OwnWalk;
use crate::own_writes::{OwnWrites, lent};
use crate::reading::value_over;
use crate::snapshot::Snapshot;
use bytes::Bytes;
use fdb_keys::{Items, Key, KeyRange, Refusal, is_before};
use fdb_mutations::Page;
use std::alloc::Global;

// How far a read is.
#[derive(Drop)]
struct Progress {
    // What it was given so far.
    given: Items<(Key, Bytes)>,
    // What is left of the range.
    left: KeyRange,
    // How many pairs the last page was asked for, and all of them at 0.
    asked: u32,
}

// How a range is read: after these writes, up to a limit, from which end.
#[derive(Clone, Copy)]
struct RangeRead<'a> {
    alloc: Global,
    own: &'a OwnWrites,
    limit: u32,
    reverse: bool,
}

impl<'a> RangeRead<'a> {
    // Whether as many pairs were given as the limit allows.
    fn is_full(&self, given: &Items<(Key, Bytes)>) -> bool
        ensures { result ≡ is_limit_reached self.now.limit given.now }
    {
        self.limit != 0 && given.len() == self.limit as usize
    }

    // The next entry of the walk, if it comes before the next key, or if there is no such key.
    fn next_own<'p>(&self, walk: &OwnWalk<'p>, next: Option<&Key>) -> Option<(&'p Bytes, &'p Kept)>
        requires at { IsAt self.now.own.now self.now.reverse walk.now }
        requires next { LiesIn (left_of self.now.reverse walk.now) (option_copied next) }
        ensures first { IsFirstOwn self.now.own.now
            (ahead_of (left_of self.now.reverse walk.now) self.now.reverse (option_copied next.entry))
            self.now.reverse (key_of result) }
        ensures rest { IfSome result (λ entry. to_come self.now.reverse walk.now
            ≡ (entry.0.now, entry.1.now) ∷ in_order self.now.reverse walk.now.rest) }
    {
        match walk.next() {
            Some((text, left)) if self.is_ahead(text, next) => Some((text, left)),
            _ => None,
        }
    }

    // Whether the text comes before the next key, in the order in which the range is read, if there is such a key.
    fn is_ahead(&self, text: &Bytes, next: Option<&Key>) -> bool
        ensures { result ≡ is_ahead self.now.reverse (option_copied next.entry) text.now }
    {
        match next {
            Some(key) if self.reverse => is_before(key.bytes(), text.as_slice()),
            Some(key) => is_before(text.as_slice(), key.bytes()),
            None => true,
        }
    }

    // What stands at the key of the map after the writes, where no entry of the walk is left before it.
    fn value_at(
        &self,
        walk: &OwnWalk<'_>,
        key: &Key,
        old: Option<Bytes>,
    ) -> Result<Option<Bytes>, Refusal>
        requires at { IsAt self.now.own.now self.now.reverse walk.now }
        requires inside { IsTrue (in_range (left_of self.now.reverse walk.now) key.now) }
        requires first { HasNoEntry self.now.own.now
            (range_behind (left_of self.now.reverse walk.now) (not self.now.reverse) key.now) }
        ensures { Answers result None (λ value. value ≡ value_over (left_at self.now.own.now key.now) old) }
    {
        match walk.left_at(key) {
            Some(left) => value_over(self.alloc, lent(left), old),
            None => value_over(self.alloc, self.own.left_beside(key), old),
        }
    }

    // Takes the own keys before the next key of the map, or all where there is none, until the limit is reached.
    fn take_own(
        &self,
        walk: &mut OwnWalk<'_>,
        given: &mut Items<(Key, Bytes)>,
        next: Option<&Key>,
    ) -> Result<(), Refusal>
        requires legal_keys { HasLegalKeys self.now.own.now }
        requires at { IsAt self.now.own.now self.now.reverse walk.old }
        requires next { LiesIn (left_of self.now.reverse walk.old) (option_copied next) }
        requires within { IsWithin self.now.limit given.old }
        ensures answers { Answers result None (λ _. (map copy : Map) → IsCopyOf (left_at self.now.own.now) map copy
            → HasNoValue map
            (ahead_of (left_of self.now.reverse walk.old) self.now.reverse (option_copied next.entry))
            → TookOwn map copy self.now.reverse self.now.limit (option_copied next.entry) given.old
            (left_of self.now.reverse walk.old) given.new (left_of self.now.reverse walk.new)) }
        ensures within { OnOk result (IsWithin self.now.limit given.new) }
        ensures at { OnOk result (IsAt self.now.own.now self.now.reverse walk.new) }
        ensures passed { OnOk result (is_limit_reached self.now.limit given.new ≡ false
            → HasNoEntry self.now.own.now
            (ahead_of (left_of self.now.reverse walk.new) self.now.reverse (option_copied next.entry))) }
        ensures range { OnOk result (walk.new.range.now ≡ walk.old.range.now) }
    {
        while !self.is_full(given) {
            let Some((text, left)) = self.next_own(walk, next) else {
                return Ok(());
            };
            let value = value_over(self.alloc, lent(left), None)?;
            give(given, text, value)?;
            walk.pass_own(self.reverse, text);
        }
        Ok(())
    }

    // Takes the next pair of the map, before whose key no own key is left.
    fn take_pair<'p>(
        &self,
        walk: &mut OwnWalk<'p>,
        given: &mut Items<(Key, Bytes)>,
        key: &'p Key,
        value: &Bytes,
    ) -> Result<(), Refusal>
        requires at { IsAt self.now.own.now self.now.reverse walk.old }
        requires inside { IsTrue (in_range (left_of self.now.reverse walk.old) key.now) }
        requires first { HasNoEntry self.now.own.now
            (range_behind (left_of self.now.reverse walk.old) (not self.now.reverse) key.now) }
        ensures given { Answers result None (λ _. given.new
            ≡ given.old ++ pair_of key.now (value_over (left_at self.now.own.now key.now) (Some value.now))) }
        ensures left { OnOk result (left_of self.now.reverse walk.new
            ≡ range_behind (left_of self.now.reverse walk.old) self.now.reverse key.now) }
        ensures at { OnOk result (IsAt self.now.own.now self.now.reverse walk.new) }
        ensures range { OnOk result (walk.new.range.now ≡ walk.old.range.now) }
    {
        let old = value.clone()?;
        let now = self.value_at(walk, key, Some(old))?;
        give(given, key.text(), now)?;
        walk.pass(self.reverse, key);
        Ok(())
    }

    // Takes the pairs of a page and the own keys before them, and where no further pair follows, also those behind
    // them, until the limit is reached.
    fn merge<'p>(
        &self,
        walk: &mut OwnWalk<'p>,
        given: &mut Items<(Key, Bytes)>,
        page: &'p Page,
    ) -> Result<(), Refusal>
        requires legal_keys { HasLegalKeys self.now.own.now }
        requires at { IsAt self.now.own.now self.now.reverse walk.old }
        requires within { IsWithin self.now.limit given.old }
        requires page { (map : Map) × (copy : Map) × IsCopyOf (left_at self.now.own.now) map copy
            × HasFirst map (left_of self.now.reverse walk.old) self.now.reverse page.now }
        ensures answers { Answers result None (λ _. (map copy : Map) → IsCopyOf (left_at self.now.own.now) map copy
            → HasFirst map (left_of self.now.reverse walk.old) self.now.reverse page.now
            → TookPage map copy self.now.reverse self.now.limit (length page.now.pairs) page.now.more
            given.old (left_of self.now.reverse walk.old) given.new (left_of self.now.reverse walk.new)) }
        ensures within { OnOk result (IsWithin self.now.limit given.new) }
        ensures at { OnOk result (IsAt self.now.own.now self.now.reverse walk.new) }
        ensures range { OnOk result (walk.new.range.now ≡ walk.old.range.now) }
    {
        for (key, value) in page.pairs.as_slice() {
            self.take_own(walk, given, Some(key))?;
            if self.is_full(given) {
                return Ok(());
            }
            self.take_pair(walk, given, key, value)?;
        }
        if page.more {
            return Ok(());
        }
        self.take_own(walk, given, None)
    }

    // Merges a page of what is left. What is left then, if the read goes on.
    fn merge_left(
        &self,
        left: &KeyRange,
        given: &mut Items<(Key, Bytes)>,
        page: &Page,
    ) -> Result<Option<KeyRange>, Refusal>
        requires legal_keys { HasLegalKeys self.now.own.now }
        requires within { IsWithin self.now.limit given.old }
        requires page { (map : Map) × (copy : Map) × IsCopyOf (left_at self.now.own.now) map copy
            × HasFirst map left.now self.now.reverse page.now }
        requires goes_on { page.now.more ≡ true → 0 < length page.now.pairs }
        ensures { Answers result None (λ rest. (map copy : Map) (range : Range)
            → IsCopyOf (left_at self.now.own.now) map copy → HasFirst map left.now self.now.reverse page.now
            → ReadsOn (left_at self.now.own.now) map range self.now.reverse self.now.limit given.old left.now
            → ReadsPage (left_at self.now.own.now) map range self.now.reverse self.now.limit left.now given.new
            (unwrap_or rest left.now) (is_some rest)) }
    {
        let mut walk = OwnWalk::new(self.own, left, self.reverse);
        self.merge(&mut walk, given, page)?;
        if page.more && !self.is_full(given) {
            let rest = walk.left(self.alloc, self.reverse)?;
            return Ok(Some(rest));
        }
        Ok(None)
    }

    // Merges a page of what is left. Whether the read goes on then.
    fn merge_page(&self, progress: &mut Progress, page: &Page) -> Result<bool, Refusal>
        requires legal_keys { HasLegalKeys self.now.own.now }
        requires within { IsWithin self.now.limit progress.old.given }
        requires page { (map : Map) × (copy : Map) × IsCopyOf (left_at self.now.own.now) map copy
            × HasFirst map progress.old.left self.now.reverse page.now }
        requires goes_on { page.now.more ≡ true → 0 < length page.now.pairs }
        ensures { Answers result None (λ more. (map copy : Map) (range : Range)
            → IsCopyOf (left_at self.now.own.now) map copy → HasFirst map progress.old.left self.now.reverse page.now
            → ReadsOn (left_at self.now.own.now) map range self.now.reverse self.now.limit progress.old.given
            progress.old.left
            → ReadsPage (left_at self.now.own.now) map range self.now.reverse self.now.limit progress.old.left
            progress.new.given progress.new.left more) }
    {
        match self.merge_left(&progress.left, &mut progress.given, page)? {
            Some(rest) => {
                progress.left = rest;
                Ok(true)
            }
            None => Ok(false),
        }
    }

    // Takes the next page of what is left. Whether the read goes on then. It is asked for twice as many pairs as the
    // page before, of which own writes hid some, so that however many they hide, few pages are asked for.
    fn take_page<S: Snapshot>(&self, snapshot: &S, progress: &mut Progress) -> Result<bool, Refusal>
        requires legal_keys { HasLegalKeys self.now.own.now }
        requires within { IsWithin self.now.limit progress.old.given }
        requires copy { (copy : Map) × IsCopyOf (left_at self.now.own.now) (S.map snapshot.now) copy }
        ensures { Answers result (S.range_fault snapshot.now progress.old.left) (λ more. (range : Range)
            → ReadsOn (left_at self.now.own.now) (S.map snapshot.now) range self.now.reverse self.now.limit
            progress.old.given progress.old.left
            → ReadsPage (left_at self.now.own.now) (S.map snapshot.now) range self.now.reverse self.now.limit
            progress.old.left progress.new.given progress.new.left more) }
    {
        let asked = progress.asked.saturating_mul(2);
        progress.asked = asked;
        let page = snapshot.page(&progress.left, asked, self.reverse)?;
        let more = self.merge_page(progress, &page);
        drop(page);
        more
    }

    // Takes all of what is left, which the snapshot doesn't refuse and whose first page this is.
    fn take_all<S: Snapshot>(
        &self,
        snapshot: &S,
        progress: &mut Progress,
        page: &Page,
    ) -> Result<(), Refusal>
        requires legal_keys { HasLegalKeys self.now.own.now }
        requires copy { (copy : Map) × IsCopyOf (left_at self.now.own.now) (S.map snapshot.now) copy }
        requires start { progress.old.given ≡ [] }
        requires served { S.range_fault snapshot.now progress.old.left ≡ None }
        requires page { IsPage (S.map snapshot.now) progress.old.left self.now.limit self.now.reverse page.now }
        ensures { Answers result None (λ _. (copy : Map) → IsCopyOf (left_at self.now.own.now) (S.map snapshot.now) copy
            → progress.new.given ≡ given_of copy progress.old.left self.now.limit self.now.reverse) }
    {
        let mut more = self.merge_page(progress, page)?;
        while more {
            more = self.take_page(snapshot, progress)?;
        }
        Ok(())
    }

    // Reads the range, which the snapshot doesn't refuse and whose first page this is.
    fn read_all<S: Snapshot>(
        &self,
        snapshot: &S,
        range: &KeyRange,
        page: &Page,
    ) -> Result<Items<(Key, Bytes)>, Refusal>
        requires legal_keys { HasLegalKeys self.now.own.now }
        requires copy { (copy : Map) × IsCopyOf (left_at self.now.own.now) (S.map snapshot.now) copy }
        requires served { S.range_fault snapshot.now range.now ≡ None }
        requires page { IsPage (S.map snapshot.now) range.now self.now.limit self.now.reverse page.now }
        ensures { Answers result None (λ given. (copy : Map)
            → IsCopyOf (left_at self.now.own.now) (S.map snapshot.now) copy
            → given ≡ given_of copy range.now self.now.limit self.now.reverse) }
    {
        let left = range.clone()?;
        let mut progress = Progress {
            given: Items::new(self.alloc),
            left,
            asked: self.limit,
        };
        match self.take_all(snapshot, &mut progress, page) {
            Ok(()) => Ok(progress.given),
            Err(why) => {
                drop(progress);
                Err(why)
            }
        }
    }
}

// The pair of the key with the text is given, if it has a value.
fn give(given: &mut Items<(Key, Bytes)>, text: &Bytes, value: Option<Bytes>) -> Result<(), Refusal>
    requires { IsTrue (is_key text.now) }
    ensures { Answers result None (λ _. given.new ≡ given.old ++ pair_of text.now value) }
{
    if let Some(value) = value {
        let key = Key::from_text(text.clone()?);
        given.push((key, value))?;
    }
    Ok(())
}

// What a read of the range is given after the writes: the first pairs, or the last ones from its end, as many as the
// limit allows, or all of them where it is 0.
// It goes once over the own writes, beside the pages: for n pairs and own writes that it comes by it takes O(n) steps
// on the average, for each page a search for the first and the last own write of what is left, and where ranges were
// cleared, for each pair of a page that has no own write a search among these. Where own writes hide n pairs, it asks
// for O(log n) pages.
pub(crate) fn pairs_of<S: Snapshot>(
    alloc: Global,
    own: &OwnWrites,
    snapshot: &S,
    range: &KeyRange,
    limit: u32,
    reverse: bool,
) -> Result<Items<(Key, Bytes)>, Refusal>
    requires legal_keys { HasLegalKeys own.now }
    requires copy { (copy : Map) × IsCopyOf (left_at own.now) (S.map snapshot.now) copy }
    ensures { Answers result (S.range_fault snapshot.now range.now)
        (λ given. (copy : Map) → IsCopyOf (left_at own.now) (S.map snapshot.now) copy
        → given ≡ given_of copy range.now limit reverse) }
{
    let read = RangeRead {
        alloc,
        own,
        limit,
        reverse,
    };
    // The snapshot is asked before anything takes memory, since it may refuse the range.
    let page = snapshot.page(range, limit, reverse)?;
    let given = read.read_all(snapshot, range, &page);
    drop(page);
    given
}
