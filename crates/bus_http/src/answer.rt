ghost use Rattle.std.specs.Prelude.{◌≡◌, ◌≤◌, codes, length, map, option_map, All, IfSome, IfNone};
ghost use Rattle.httparse.specs.Grammar.{ResponseHead};
ghost use Rattle.httparse.specs.Spans.{IsHeaderWithin, IsResponseWithin, IsResponseAt, header_bytes};
ghost use Rattle.bus_http.specs.Head.{is_word};
ghost use Rattle.bus_http.specs.Answers.{first_length, length_in, size_in, body_size, IsReplyHead};

use crate::head::{MAX_HEADERS, is_word};
use bus_types::read_number;
use httparse::Status;
use httparse::spans::{EMPTY_HEADER_SPAN, HeaderSpan, ResponseSpans, parse_response};

/// The most bytes of a reply.
const MAX_BODY: u64 = 16_777_216;

/// Why an answer was not read.
#[derive(Clone, Copy, Debug, PartialEq, Eq)]
pub enum AnswerFault {
    /// The source failed: its count rose.
    ReadFault,
    /// The bytes don't begin with an answer of status 200 and at most 16,777,216 bytes.
    BadAnswer,
    /// Memory ran out. Nothing of the answer was taken.
    NoMemory,
}

// Whether a header says how long the body is.
fn says_length(name: &[u8]) -> bool
    ensures { result ≡ is_word name.now (codes "content-length") }
{
    is_word(name, b"content-length")
}

// The value of the first header that says how long the body is, and the headers behind it.
fn next_length<'a, 'b>(
    text: &'a [u8],
    headers: &'b [HeaderSpan],
) -> Option<(&'a [u8], &'b [HeaderSpan])>
    requires { All (IsHeaderWithin (length text.now)) headers.now }
    ensures found { option_map (λ f. (f.0.now, map (header_bytes text.now) f.1.now)) result ≡ first_length (map (header_bytes text.now) headers.now) }
    ensures within { IfSome result (λ f. All (IsHeaderWithin (length text.now)) f.1.now) }
{
    for (i, header) in headers.iter().enumerate() {
        if says_length(header.name.of(text)) {
            return Some((header.value.of(text), &headers[i + 1..]));
        }
    }
    None
}

// The length that the one such header says.
#[tactic(auto, unfolding(crate::specs::Answers::length_in))]
fn length_in(text: &[u8], headers: &[HeaderSpan]) -> Option<u64>
    requires { All (IsHeaderWithin (length text.now)) headers.now }
    ensures value { result ≡ length_in (map (header_bytes text.now) headers.now) }
    ensures small { IfSome result (λ size. size ≤ 16777216) }
{
    let (value, rest) = next_length(text, headers)?;
    let None = next_length(text, rest) else {
        return None;
    };
    read_number(value, MAX_BODY)
}

// The length of the body by the status and the headers of an answer.
#[tactic(auto, unfolding(crate::specs::Answers::size_in))]
fn size_in(code: u16, text: &[u8], headers: &[HeaderSpan]) -> Option<u64>
    requires { All (IsHeaderWithin (length text.now)) headers.now }
    ensures value { result ≡ size_in code (map (header_bytes text.now) headers.now) }
    ensures small { IfSome result (λ size. size ≤ 16777216) }
{
    if code != 200 {
        return None;
    }
    length_in(text, headers)
}

// The places of the parts of a text, where the whole of it is one head of an answer.
fn split_head(text: &[u8], headers: &mut [HeaderSpan]) -> Option<ResponseSpans>
    requires { length headers.old ≡ 64 }
    ensures within { IfSome result (IsResponseWithin text.now headers.new) }
    ensures some { IfSome result (λ spans. (h : ResponseHead) × IsReplyHead text.now h) }
    ensures each { IfSome result (λ spans. (h : ResponseHead) → IsReplyHead text.now h → IsResponseAt text.now headers.new spans h) }
    ensures none { IfNone result ((h : ResponseHead) → IsReplyHead text.now h → ⊥) }
{
    match parse_response(text, headers) {
        Ok(Status::Complete(spans)) if spans.len == text.len() => Some(spans),
        _ => None,
    }
}

/// The length of the body that the head of an answer says, where the text is one.
pub(crate) fn body_size(text: &[u8]) -> Option<u64>
    ensures some { IfSome result (λ _. (h : ResponseHead) × IsReplyHead text.now h) }
    ensures sized { (h : ResponseHead) → IsReplyHead text.now h → result ≡ body_size h }
    ensures small { IfSome result (λ size. size ≤ 16777216) }
{
    let mut headers = [EMPTY_HEADER_SPAN; MAX_HEADERS];
    let head = split_head(text, &mut headers)?;
    size_in(head.code, text, &headers[..head.headers])
}
