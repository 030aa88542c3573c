ghost use Rattle.std.specs.Prelude.{◌≡◌, ◌≢◌, ◌++◌, ℕ, List, ◌∷◌, None, Some, IfOk, IfErr};
ghost use Rattle.std.specs.List.{list_any};
ghost use Rattle.fdb_play.specs.script.Configs.{WritesConfig, WritesOutline, WritesSplits, WritesTexts, first_fault};
ghost use Rattle.fdb_play.specs.script.Configs.{is_too_long, line_fault, splits_fault};
ghost use Rattle.fdb_play.specs.script.Faults.{MatchFault, Reads};
ghost use Rattle.fdb_play.specs.script.Grammar.{WritesSmall, WritesText};
ghost use Rattle.fdb_play.specs.script.Words.{words_of};

use crate::script::fault::Fault;
use crate::script::texts::{make_key, read_text};
use crate::script::words::Words;
use fdb_core::Config;
use fdb_keys::{Items, KEY_LIMIT, Key, Refusal};
use std::alloc::Global;

// The words of a configuration whose splits are not read yet.
#[derive(Clone, Copy)]
struct Outline<'a> {
    proxies: u32,
    logs: u32,
    resolvers: &'a [u8],
    shards: &'a [u8],
    book: u32,
}

/// The configuration that the line gives. A line of another form is bad, also where one of its splits
/// would be refused as a key. Refused where a split is no key: as `KeyTooLarge` where one is too long, and
/// else as `KeyOutsideLegalRange`.
pub fn read_config(alloc: Global, line: &[u8]) -> Result<Config, Fault>
    ensures { Reads result (WritesConfig line.now) line_fault }
{
    let outline = read_outline(line)?;
    let resolvers = read_splits(alloc, outline.resolvers)?;
    let shards = read_splits(alloc, outline.shards)?;
    let (resolver_splits, shard_splits) = make_splits(
        alloc,
        resolvers.as_slice(),
        shards.as_slice(),
    )?;
    Ok(Config {
        proxies: outline.proxies,
        logs: outline.logs,
        resolver_splits,
        shard_splits,
        book: outline.book,
    })
}

fn read_outline(line: &[u8]) -> Result<Outline<'_>, Fault>
    ensures ok { IfOk result
        (λ found. WritesOutline (words_of line.now) found.proxies found.logs found.resolvers.now found.shards.now
        found.book) }
    ensures bad { IfErr result
        (λ fault. (fault ≡ Fault.Bad) × ((a b c : ℕ) (x y : List ℕ) → ¬ WritesOutline (words_of line.now) a b x y c)) }
{
    let mut words = Words::new(line);
    words.keyword(b"config")?;
    let proxies = named_number(&mut words, b"proxies")?;
    let logs = named_number(&mut words, b"logs")?;
    let resolvers = named_word(&mut words, b"resolvers")?;
    let shards = named_word(&mut words, b"shards")?;
    let book = named_number(&mut words, b"book")?;
    words.end()?;
    Ok(Outline {
        proxies,
        logs,
        resolvers,
        shards,
        book,
    })
}

fn named_number(words: &mut Words<'_>, name: &[u8]) -> Result<u32, Fault>
    ensures ok { IfOk result
        (λ value. (word : List ℕ) × (words.old ≡ name.now ∷ word ∷ words.new) × WritesSmall word value) }
    ensures bad { IfErr result
        (λ fault. (fault ≡ Fault.Bad)
        × ((word : List ℕ) (rest : List (List ℕ)) (value : ℕ) → words.old ≡ name.now ∷ word ∷ rest
        → ¬ WritesSmall word value)) }
{
    words.keyword(name)?;
    words.small_number()
}

fn named_word<'a>(words: &mut Words<'a>, name: &[u8]) -> Result<&'a [u8], Fault>
    ensures ok { IfOk result (λ word. words.old ≡ name.now ∷ word.now ∷ words.new) }
    ensures bad { IfErr result
        (λ fault. (fault ≡ Fault.Bad) × ((word : List ℕ) (rest : List (List ℕ)) → words.old ≢ name.now ∷ word ∷ rest)) }
{
    words.keyword(name)?;
    words.word()
}

// The byte texts of a word that parts them by commas, none where it is '-'.
fn read_splits(alloc: Global, word: &[u8]) -> Result<Items<Items<u8>>, Fault>
    ensures ok { IfOk result (WritesSplits word.now) }
    ensures bad { IfErr result
        (λ fault. MatchFault fault ((splits : List (List ℕ)) → ¬ WritesSplits word.now splits) (λ _. ⊥)) }
{
    if let [b'-'] = word {
        return Ok(Items::new(alloc));
    }
    read_texts(alloc, word)
}

fn read_texts(alloc: Global, word: &[u8]) -> Result<Items<Items<u8>>, Fault>
    ensures ok { IfOk result (WritesTexts word.now) }
    ensures bad { IfErr result
        (λ fault. MatchFault fault ((texts : List (List ℕ)) → ¬ WritesTexts word.now texts) (λ _. ⊥)) }
{
    let mut texts = Items::new(alloc);
    for piece in word.split(|byte| *byte == b',') {
        texts.push(read_piece(alloc, piece)?)?;
    }
    Ok(texts)
}

fn read_piece(alloc: Global, piece: &[u8]) -> Result<Items<u8>, Fault>
    ensures ok { IfOk result (WritesText piece.now) }
    ensures bad { IfErr result (λ fault. MatchFault fault ((text : List ℕ) → ¬ WritesText piece.now text) (λ _. ⊥)) }
{
    match read_text(alloc, piece)? {
        Some(text) => Ok(Items::from_vec(text)),
        None => Err(Fault::Bad),
    }
}

// The keys of the resolvers' and of the shards' splits, refused as the first refusal of the documented order.
#[tactic(auto, using(crate::proofs::lemmas::Configs::long_splits, crate::proofs::lemmas::Configs::short_splits))]
fn make_splits(
    alloc: Global,
    resolvers: &[Items<u8>],
    shards: &[Items<u8>],
) -> Result<(Items<Key>, Items<Key>), Fault>
    ensures ok { IfOk result
        (λ keys. (keys.0 ≡ resolvers.now) × (keys.1 ≡ shards.now)
        × (splits_fault (resolvers.now ++ shards.now) ≡ None)) }
    ensures refused { IfErr result
        (λ fault. MatchFault fault ⊥ (λ why. splits_fault (resolvers.now ++ shards.now) ≡ Some why)) }
{
    if has_long(resolvers) || has_long(shards) {
        return Err(Fault::Refused(Refusal::KeyTooLarge));
    }
    let resolver_splits = make_keys(alloc, resolvers)?;
    let shard_splits = make_keys(alloc, shards)?;
    Ok((resolver_splits, shard_splits))
}

fn has_long(texts: &[Items<u8>]) -> bool
    ensures { result ≡ list_any is_too_long texts.now }
{
    texts.iter().any(|text| is_too_long(text.as_slice()))
}

fn is_too_long(text: &[u8]) -> bool
    ensures { result ≡ is_too_long text.now }
{
    text.len() > KEY_LIMIT
}

// The keys of these texts, refused as the first one that is no key.
fn make_keys(alloc: Global, texts: &[Items<u8>]) -> Result<Items<Key>, Fault>
    ensures ok { IfOk result (λ keys. (keys ≡ texts.now) × (first_fault texts.now ≡ None)) }
    ensures refused { IfErr result (λ fault. MatchFault fault ⊥ (λ why. first_fault texts.now ≡ Some why)) }
{
    let mut keys = Items::new(alloc);
    for text in texts {
        keys.push(make_key(alloc, text.as_slice())?)?;
    }
    Ok(keys)
}
