// Programs over a snapshot whose pages are cut, against a plain execution: a copy of the map to which each mutation is
// applied, and marks at the keys.
use super::cut_snapshot::CutSnapshot;
use super::marks::{Marks, only, span};
use super::steps::{Asked, Change, KEYS, Step, Text, draw_step, draw_value};
use super::{add_read, add_write, begin, get, mutation_of, range};
use fdb_client::Txn;
use fdb_keys::{Key, KeyRange, Refusal};
use fdb_making::{Random, apply, both, made_of};
use fdb_mutations::PlainMap;
use std::alloc::Global;

// The plain execution.
#[derive(Drop)]
struct Plain {
    copy: PlainMap,
    marks: Marks,
}

impl Plain {
    // Whether the key is read as the copy has it.
    fn get(
        &mut self,
        txn: &mut Txn,
        base: CutSnapshot<'_>,
        alloc: Global,
        text: Text,
        is_snapshot: bool,
    ) -> Result<bool, Refusal> {
        self.marks.read(only(text), is_snapshot);
        let key = Key::new(alloc, text)?;
        let value = get(txn, base, &key, is_snapshot)?;
        Ok(value.as_ref() == self.copy.get(&key))
    }

    // Whether the range is read as the copy has it.
    fn read_range(
        &mut self,
        txn: &mut Txn,
        base: CutSnapshot<'_>,
        keys: &KeyRange,
        asked: Asked,
    ) -> Result<bool, Refusal> {
        let (given, wanted) = both(
            range(txn, base, keys, asked),
            self.copy.range(keys, asked.limit, asked.reverse),
        )?;
        self.marks.read_range(asked, wanted.as_slice());
        Ok(given == wanted)
    }

    fn range(
        &mut self,
        txn: &mut Txn,
        base: CutSnapshot<'_>,
        alloc: Global,
        asked: Asked,
    ) -> Result<bool, Refusal> {
        let keys = KeyRange::new(alloc, asked.begin, asked.end)?;
        self.read_range(txn, base, &keys, asked)
    }

    fn write(&mut self, txn: &mut Txn, alloc: Global, change: Change) -> Result<bool, Refusal> {
        self.marks.change(change);
        apply(&mut self.copy, mutation_of(alloc, change))?;
        made_of(
            mutation_of(alloc, change),
            |mutation| txn.write_copy(mutation),
        )?;
        Ok(true)
    }

    // Whether the step is answered as by the plain execution.
    fn step(
        &mut self,
        txn: &mut Txn,
        base: CutSnapshot<'_>,
        alloc: Global,
        step: Step,
    ) -> Result<bool, Refusal> {
        match step {
            Step::Write(change) => self.write(txn, alloc, change),
            Step::Get { key, is_snapshot } => self.get(txn, base, alloc, key, is_snapshot),
            Step::Range(asked) => self.range(txn, base, alloc, asked),
            Step::AddRead(begin, end) => {
                self.marks.add_read(span(begin, end));
                Ok(add_read(txn, alloc, begin, end).is_ok())
            }
            Step::AddWrite(begin, end) => {
                self.marks.add_write(span(begin, end));
                Ok(add_write(txn, alloc, begin, end).is_ok())
            }
        }
    }

    // Whether each of a dozen steps is, and reads and writes the same.
    fn steps(
        &mut self,
        txn: &mut Txn,
        base: CutSnapshot<'_>,
        alloc: Global,
        random: &mut Random,
    ) -> Result<bool, Refusal> {
        for _ in 0..12 {
            let step = draw_step(random);
            if !self.step(txn, base, alloc, step)? {
                return Ok(false);
            }
        }
        self.marks.agree(txn, alloc)
    }
}

// Gives about half of the keys a value, the same in both maps.
fn fill_both(
    map: &mut PlainMap,
    copy: &mut PlainMap,
    alloc: Global,
    random: &mut Random,
) -> Result<(), Refusal> {
    for key in KEYS {
        let change = Change::Set(key, draw_value(random));
        if random.coin() {
            apply(map, mutation_of(alloc, change))?;
            apply(copy, mutation_of(alloc, change))?;
        }
    }
    Ok(())
}

// Whether a program from the seed is answered, reads and writes as by the plain execution.
fn agrees(alloc: Global, seed: u64) -> bool {
    let mut random = Random::new(seed);
    let mut map = PlainMap::new(alloc);
    let mut plain = Plain {
        copy: PlainMap::new(alloc),
        marks: Marks::new(),
    };
    let is_filled = fill_both(&mut map, &mut plain.copy, alloc, &mut random).is_ok();
    let base = CutSnapshot {
        version: 0,
        map: &map,
        cut: u32::from(random.below(3)) + 1,
        fault: None,
    };
    let mut txn = begin(alloc);
    is_filled && plain.steps(&mut txn, base, alloc, &mut random) == Ok(true)
}

#[test]
fn programs_agree_with_a_plain_execution(rt: HostRuntime) {
    for seed in 0..300 {
        assert!(rt; agrees(rt.alloc(), seed), "at {seed}");
    }
}
