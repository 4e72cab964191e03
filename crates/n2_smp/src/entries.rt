//! The numbers of entries.

ghost use Rattle.n2_journal.specs.Journals.{AreEightWords, IsReplyWithin};
ghost use Rattle.n2_smp.specs.Rows.{HasItsTypes};

use n2_bus::{Reply, Request};

/// The words of a line.
#[inline(always)]
fn eight_words(words: &[u32; 8])
    ensures { AreEightWords words.now }
{
    let [_a, _b, _c, _d, _e, _f, _g, _h] = *words;
}

#[inline(always)]
fn request_types(request: &Request)
    ensures { HasItsTypes request.now }
{
    match request {
        Request::FillCode(_) | Request::FillData(_) => (),
        Request::WriteBack(_, words) => eight_words(words),
        Request::Read(_, _) => (),
        Request::Write(_, _, value) => {
            let _value = *value;
        }
        Request::Sample => (),
        Request::Tick(n) => {
            let _n = *n;
        }
        Request::Receive(_) | Request::Drain(_) => (),
    }
}

#[inline(always)]
fn reply_types(reply: &Reply)
    ensures { IsReplyWithin reply.now }
{
    eight_words(&reply.words);
    let _lines = reply.lines;
    let _pointer = reply.pointer;
}

/// A request and its reply have the values of their types, so the numbers of an entry fit its row.
#[inline(always)]
pub fn have_types(request: &Request, reply: &Reply)
    ensures request { HasItsTypes request.now }
    ensures reply { IsReplyWithin reply.now }
{
    request_types(request);
    reply_types(reply);
}
