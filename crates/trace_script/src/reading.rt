ghost use Rattle.std.specs.Prelude.{◌≡◌, ◌==◌, ◌≤◌, ◌∷◌, true, false, bytes_eq, codes, length, IfOk, IfSome, IfNone, IsErrOf, map};
ghost use Rattle.std.specs.List.{list_all, list_any};
ghost use Rattle.bus_types.specs.Text.{number_of, max_u64};
ghost use Rattle.trace_script.specs.Reading.{Reads};
ghost use Rattle.trace_script.specs.declared.line.Line.{Line};
ghost use Rattle.trace_script.specs.Spelling.{is_in_range, Spells};
ghost use Rattle.trace_script.specs.Words.{IsNoCommit, is_line_byte, may_be_words, words_of, changes_of, number_in, name_of, selection_of};
ghost use Rattle.trace_script.specs.Lines.{is_blank, relay_of, consumer_of, commit_by, commit_of, gen_of, feed_of, poll_of, show_of, sum_of, crash_of, when_of, stop_of, stream_of, log_of, apply_of, trim_of, restart_of, words_line, line_of};

use crate::change::changes;
use crate::fault::LineFault;
use crate::line::{
    Line, MAX_COUNT, MAX_GENERATED, MAX_REPLY, MAX_ROOM, MAX_SEED, MAX_WINDOWS, MIN_ROOM,
};
use crate::name::Name;
use bus_types::{Changes, MAX_SCN, cut_text, read_number};
use memchr::memchr;
use partition_filter::{Filter, FilterFault};
use std::alloc::{AllocError, Global};

/// The line that a text spells, without its LF. `BadLine` comes exactly where the text is no line, and `NoMemory` where
/// memory ran out: never of a blank text, nor of one of which a byte that no word has, or an empty word, shows that it is no
/// line.
pub fn read_line(alloc: Global, text: &[u8]) -> Result<Line, LineFault>
    ensures exact { Reads (λ line. line) result (line_of text.now) }

    // What is read is spelled so, and what is bad is spelled by no line.
    ensures found { IfOk result (λ line. Spells text.now line) }
    ensures in_range { IfOk result (λ line. is_in_range line ≡ true) }
    ensures bad { IsErrOf result LineFault.BadLine → (line : Line) → Spells text.now line → ⊥ }

    // Memory is taken only for what may be a line that isn't blank.
    ensures full { IsErrOf result LineFault.NoMemory → is_blank text.now ≡ false }
    ensures memory { IsErrOf result LineFault.NoMemory → may_be_words text.now ≡ true }
{
    text_line(alloc, text)
}

fn text_line(alloc: Global, text: &[u8]) -> Result<Line, LineFault>
    ensures exact { Reads (λ line. line) result (line_of text.now) }
    ensures full { IsErrOf result LineFault.NoMemory → is_blank text.now ≡ false }
    ensures memory { IsErrOf result LineFault.NoMemory → may_be_words text.now ≡ true }
{
    if is_blank(text) {
        blank(text).ok_or(LineFault::BadLine)
    } else {
        full_line(alloc, text)
    }
}

/// A blank line, where its text has no CR.
#[tactic(auto, unfolding(crate::specs::Lines::line_of))]
fn blank(text: &[u8]) -> Option<Line>
    requires { is_blank text.now ≡ true }
    ensures { result ≡ line_of text.now }
{
    if has_carriage_return(text) {
        None
    } else {
        Some(Line::Blank)
    }
}

/// The line of a text that isn't blank. Its bytes are looked at one by one only where memory ran out.
#[tactic(auto, using(crate::proofs::LineTexts::no_line))]
fn full_line(alloc: Global, text: &[u8]) -> Result<Line, LineFault>
    requires { is_blank text.now ≡ false }
    ensures exact { Reads (λ line. line) result (line_of text.now) }
    ensures memory { IsErrOf result LineFault.NoMemory → may_be_words text.now ≡ true }
{
    match line_in_words(alloc, text) {
        Ok(line) => Ok(line),
        Err(LineFault::BadLine) => Err(LineFault::BadLine),
        Err(LineFault::NoMemory) => {
            if may_be_words(text) {
                Err(LineFault::NoMemory)
            } else {
                Err(LineFault::BadLine)
            }
        }
    }
}

/// The line that a text, which isn't blank, spells in words. The words of a commit, which may be many, aren't gathered.
#[tactic(auto, using(crate::proofs::LineTexts::line_of_return, crate::proofs::WordCuts::line_of_commit))]
fn line_in_words(alloc: Global, text: &[u8]) -> Result<Line, LineFault>
    requires { is_blank text.now ≡ false }
    ensures { Reads (λ line. line) result (line_of text.now) }
{
    if has_carriage_return(text) {
        return Err(LineFault::BadLine);
    }
    match commit_words(text) {
        Some(words) => commit(alloc, words),
        None => other_line(alloc, text),
    }
}

/// The words behind the word `commit`, where a text begins with it and has more.
#[tactic(auto, using(crate::proofs::WordCuts::words_cut, crate::proofs::WordCuts::words_uncut))]
fn commit_words(text: &[u8]) -> Option<&[u8]>
    ensures some { IfSome result (λ words. words_of text.now ≡ codes "commit" ∷ words_of words.now) }
    ensures none { IfNone result (IsNoCommit (words_of text.now)) }
{
    let (word, words) = cut_text(b' ', text)?;
    if word == b"commit".as_slice() {
        Some(words)
    } else {
        None
    }
}

/// The line that a text spells in words, where that is no commit. An empty word is refused before the words are gathered.
#[tactic(auto, using(crate::proofs::LineTexts::line_of_empty, crate::proofs::LineTexts::line_of_some))]
fn other_line(alloc: Global, text: &[u8]) -> Result<Line, LineFault>
    requires full { is_blank text.now ≡ false }
    requires no_return { list_any (λ b. b == 13) text.now ≡ false }
    requires no_commit { IsNoCommit (words_of text.now) }
    ensures { Reads (λ line. line) result (line_of text.now) }
{
    if has_empty_word(text) {
        return Err(LineFault::BadLine);
    }
    let words = words(alloc, text)?;
    words_line(alloc, &words)
}

/// Whether each byte is a space or one that words have, and no word is empty.
fn may_be_words(text: &[u8]) -> bool
    ensures { result ≡ may_be_words text.now }
{
    all_in_words(text) && !has_empty_word(text)
}

fn all_in_words(text: &[u8]) -> bool
    ensures { result ≡ list_all is_line_byte text.now }
{
    text.iter().all(|b| {
        matches!(*b, b' ' | b'a'..=b'z' | b'0'..=b'9' | b'_' | b'/' | b'=' | b'-' | b'%' | b':' | b',' | b';' | b'*')
    })
}

fn has_carriage_return(text: &[u8]) -> bool
    ensures { result ≡ list_any (λ b. b == 13) text.now }
{
    memchr(b'\r', text).is_some()
}

/// Whether the text is empty or a comment.
fn is_blank(text: &[u8]) -> bool
    ensures { result ≡ is_blank text.now }
{
    match text {
        [] => true,
        [first, ..] => *first == b'#',
    }
}

/// Whether a space stands at an end, or beside a space. No line is spelled so, and such a text may have many parts.
fn has_empty_word(text: &[u8]) -> bool
    ensures { result ≡ list_any (λ word. length word == 0) (words_of text.now) }
{
    text.split(|b| *b == b' ').any(|word| word.is_empty())
}

/// The parts of the text between spaces, of which an empty one is no word.
fn words(alloc: Global, text: &[u8]) -> Result<Vec<&[u8]>, AllocError>
    ensures { IfOk result (λ words. map (λ word. word.now) words.items ≡ words_of text.now) }
{
    text.split(|b| *b == b' ').collect(alloc)
}

/// The line of these words, which are no commit, by the first one. No line is one word.
fn words_line(alloc: Global, words: &[&[u8]]) -> Result<Line, LineFault>
    requires { IsNoCommit (map (λ word. word.now) words.now) }
    ensures { Reads (λ line. line) result (words_line (map (λ word. word.now) words.now)) }
{
    if words.len() < 2 {
        return Err(LineFault::BadLine);
    }
    let [word, words @ ..] = words else {
        return Err(LineFault::BadLine);
    };
    named_line(alloc, word, words)
}

/// The line of a word and those behind it, where that isn't `commit`.
#[tactic(auto, unfolding(crate::specs::Lines::words_line))]
fn named_line(alloc: Global, word: &[u8], words: &[&[u8]]) -> Result<Line, LineFault>
    requires { bytes_eq word.now (codes "commit") ≡ false }
    ensures { Reads (λ line. line) result (words_line (word.now ∷ map (λ word. word.now) words.now)) }
{
    if word == b"consumer".as_slice() {
        return consumer(alloc, words);
    }
    if word == b"stream".as_slice() {
        return stream(alloc, words);
    }
    plain_line(word, words).ok_or(LineFault::BadLine)
}

/// The line of these words, where it is none of changes or a filter.
#[tactic(auto, unfolding(crate::specs::Lines::words_line))]
fn plain_line(word: &[u8], words: &[&[u8]]) -> Option<Line>
    requires commit { bytes_eq word.now (codes "commit") ≡ false }
    requires consumer { bytes_eq word.now (codes "consumer") ≡ false }
    requires stream { bytes_eq word.now (codes "stream") ≡ false }
    ensures { result ≡ words_line (word.now ∷ map (λ word. word.now) words.now) }
{
    if word == b"feed".as_slice() {
        feed(words)
    } else if word == b"gen".as_slice() {
        generated(words)
    } else if word == b"poll".as_slice() {
        poll(words)
    } else if word == b"show".as_slice() {
        show(words)
    } else if word == b"sum".as_slice() {
        sum(words)
    } else if word == b"crash".as_slice() {
        crash(words)
    } else if word == b"stop".as_slice() {
        stop(words)
    } else if word == b"log".as_slice() {
        log(words)
    } else if word == b"apply".as_slice() {
        apply(words)
    } else if word == b"trim".as_slice() {
        trim(words)
    } else if word == b"restart".as_slice() {
        restart(words)
    } else if word == b"relay".as_slice() {
        relay(words)
    } else {
        None
    }
}

/// `commit SCN CHANGE ..`
#[tactic(auto, using(crate::proofs::WordCuts::commit_read, crate::proofs::WordCuts::commit_unread))]
fn commit(alloc: Global, words: &[u8]) -> Result<Line, LineFault>
    ensures { Reads (λ line. line) result (commit_of (words_of words.now)) }
{
    let Some((scn, changes)) = cut_text(b' ', words) else {
        return Err(LineFault::BadLine);
    };
    commit_line(alloc, scn, changes)
}

/// A commit at the SCN that a word spells, of the changes that the words of a text spell.
fn commit_line(alloc: Global, scn: &[u8], words: &[u8]) -> Result<Line, LineFault>
    ensures { Reads (λ line. line) result (commit_by (number_of max_u64 scn.now) (changes_of (words_of words.now))) }
{
    let scn = read_number(scn, u64::MAX).ok_or(LineFault::BadLine)?;
    let changes = Changes::new(changes(alloc, words)?);
    Ok(Line::Commit { scn, changes })
}

/// `relay BYTES COUNT`
#[tactic(auto, unfolding(crate::specs::Lines::relay_of))]
fn relay(words: &[&[u8]]) -> Option<Line>
    ensures { result ≡ relay_of (map (λ word. word.now) words.now) }
{
    let [bytes, count] = words else {
        return None;
    };
    let bytes = number_in(bytes, MIN_ROOM, MAX_ROOM)?;
    let windows = number_in(count, 1, MAX_WINDOWS)?;
    Some(Line::Relay {
        bytes,
        windows: windows as u32,
    })
}

/// `consumer NAME FILTER`
#[tactic(auto, unfolding(crate::specs::Lines::consumer_of))]
fn consumer(alloc: Global, words: &[&[u8]]) -> Result<Line, LineFault>
    ensures { Reads (λ line. line) result (consumer_of (map (λ word. word.now) words.now)) }
{
    let [name, filter] = words else {
        return Err(LineFault::BadLine);
    };
    let name = known_name(name).ok_or(LineFault::BadLine)?;
    let filter = selection(alloc, filter)?;
    Ok(Line::Consumer { name, filter })
}

/// `gen SEED COUNT`
#[tactic(auto, unfolding(crate::specs::Lines::gen_of))]
fn generated(words: &[&[u8]]) -> Option<Line>
    ensures { result ≡ gen_of (map (λ word. word.now) words.now) }
{
    let [seed, count] = words else {
        return None;
    };
    let seed = read_number(seed, MAX_SEED)?;
    let count = number_in(count, 1, MAX_GENERATED)?;
    Some(Line::Gen {
        seed: seed as u32,
        count: count as u32,
    })
}

/// `feed N`
#[tactic(auto, unfolding(crate::specs::Lines::feed_of))]
fn feed(words: &[&[u8]]) -> Option<Line>
    ensures { result ≡ feed_of (map (λ word. word.now) words.now) }
{
    let [count] = words else {
        return None;
    };
    Some(Line::Feed(line_count(count)?))
}

/// `poll NAME MAX`
#[tactic(auto, unfolding(crate::specs::Lines::poll_of))]
fn poll(words: &[&[u8]]) -> Option<Line>
    ensures { result ≡ poll_of (map (λ word. word.now) words.now) }
{
    let [name, max] = words else {
        return None;
    };
    let name = known_name(name)?;
    let max = reply_size(max)?;
    Some(Line::Poll { name, max })
}

/// `show NAME`
#[tactic(auto, unfolding(crate::specs::Lines::show_of))]
fn show(words: &[&[u8]]) -> Option<Line>
    ensures { result ≡ show_of (map (λ word. word.now) words.now) }
{
    let [name] = words else {
        return None;
    };
    Some(Line::Show(known_name(name)?))
}

/// `sum NAME`
#[tactic(auto, unfolding(crate::specs::Lines::sum_of))]
fn sum(words: &[&[u8]]) -> Option<Line>
    ensures { result ≡ sum_of (map (λ word. word.now) words.now) }
{
    let [name] = words else {
        return None;
    };
    Some(Line::Sum(known_name(name)?))
}

/// `crash NAME`
#[tactic(auto, unfolding(crate::specs::Lines::crash_of))]
fn crash(words: &[&[u8]]) -> Option<Line>
    ensures { result ≡ crash_of (map (λ word. word.now) words.now) }
{
    let [name] = words else {
        return None;
    };
    Some(Line::Crash(known_name(name)?))
}

/// `stop NAME before` or `stop NAME after`
#[tactic(auto, unfolding(crate::specs::Lines::stop_of))]
fn stop(words: &[&[u8]]) -> Option<Line>
    ensures { result ≡ stop_of (map (λ word. word.now) words.now) }
{
    let [name, when] = words else {
        return None;
    };
    let name = known_name(name)?;
    let after = is_after(when)?;
    Some(Line::Stop { name, after })
}

/// Whether the word says that a stop comes after the commit.
#[tactic(auto, unfolding(crate::specs::Lines::when_of))]
fn is_after(word: &[u8]) -> Option<bool>
    ensures { result ≡ when_of word.now }
{
    if word == b"before".as_slice() {
        Some(false)
    } else if word == b"after".as_slice() {
        Some(true)
    } else {
        None
    }
}

/// `log N`
#[tactic(auto, unfolding(crate::specs::Lines::log_of))]
fn log(words: &[&[u8]]) -> Option<Line>
    ensures { result ≡ log_of (map (λ word. word.now) words.now) }
{
    let [count] = words else {
        return None;
    };
    Some(Line::Log(line_count(count)?))
}

/// `apply N`
#[tactic(auto, unfolding(crate::specs::Lines::apply_of))]
fn apply(words: &[&[u8]]) -> Option<Line>
    ensures { result ≡ apply_of (map (λ word. word.now) words.now) }
{
    let [count] = words else {
        return None;
    };
    Some(Line::Apply(line_count(count)?))
}

/// `trim SCN`
#[tactic(auto, unfolding(crate::specs::Lines::trim_of))]
fn trim(words: &[&[u8]]) -> Option<Line>
    ensures { result ≡ trim_of (map (λ word. word.now) words.now) }
{
    let [scn] = words else {
        return None;
    };
    Some(Line::Trim(read_number(scn, MAX_SCN)?))
}

/// `restart boot`
#[tactic(auto, unfolding(crate::specs::Lines::restart_of))]
fn restart(words: &[&[u8]]) -> Option<Line>
    ensures { result ≡ restart_of (map (λ word. word.now) words.now) }
{
    let [word] = words else {
        return None;
    };
    if *word == b"boot".as_slice() {
        Some(Line::RestartBoot)
    } else {
        None
    }
}

/// `stream SCN FILTER MAX`
#[tactic(auto, unfolding(crate::specs::Lines::stream_of))]
fn stream(alloc: Global, words: &[&[u8]]) -> Result<Line, LineFault>
    ensures { Reads (λ line. line) result (stream_of (map (λ word. word.now) words.now)) }
{
    let [scn, filter, max] = words else {
        return Err(LineFault::BadLine);
    };
    let scn = read_number(scn, MAX_SCN).ok_or(LineFault::BadLine)?;
    let max = reply_size(max).ok_or(LineFault::BadLine)?;
    let filter = selection(alloc, filter)?;
    Ok(Line::Stream { scn, filter, max })
}

/// The filter that a word spells.
fn selection(alloc: Global, word: &[u8]) -> Result<Filter, LineFault>
    ensures { Reads (λ filter. filter) result (selection_of word.now) }
{
    match Filter::read_bytes(alloc, word) {
        Ok(filter) => Ok(filter),
        Err(FilterFault::NoMemory) => Err(LineFault::NoMemory),
        Err(FilterFault::BadFilter { .. }) => Err(LineFault::BadLine),
    }
}

/// How many commits are fed, or windows are logged or applied.
fn line_count(word: &[u8]) -> Option<u64>
    ensures { result ≡ number_in 1 1000000 word.now }
{
    number_in(word, 1, MAX_COUNT)
}

/// The most bytes of a reply.
fn reply_size(word: &[u8]) -> Option<u32>
    ensures { result ≡ number_in 1 16777216 word.now }
{
    let max = number_in(word, 1, MAX_REPLY)?;
    Some(max as u32)
}

#[tactic(auto, unfolding(crate::specs::Words::name_of))]
fn known_name(word: &[u8]) -> Option<Name>
    ensures { result ≡ name_of word.now }
{
    Name::new(word)
}

/// The number that a word spells, where it is at least `min` and at most `max`.
#[tactic(auto, unfolding(crate::specs::Words::number_in))]
fn number_in(word: &[u8], min: u64, max: u64) -> Option<u64>
    ensures value { result ≡ number_in min max word.now }
    ensures small { IfSome result (λ number. number ≤ max) }
{
    let number = read_number(word, max)?;
    if min <= number { Some(number) } else { None }
}
