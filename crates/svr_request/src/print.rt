ghost use Rattle.std.specs.Prelude.{◌≡◌, ◌+◌, ◌*◌, ◌≤◌, ◌++◌, flat_map, length};
ghost use Rattle.std.specs.Fmt.{decimal};
ghost use Rattle.svr_request.specs.Replies.{IsPrintable, fault_text, hit_text, hits_text, more_text, record_text, refusal_text, text_of};

use crate::buffer::{REPLY_BYTES, ReplyBuf};
use crate::refusal::Refusal;
use crate::reply::{Fault, Reply};
use svr_num::Hit;

/// Prints a piece and a number behind it.
fn print_number(piece: &[u8], number: u64, into: &mut ReplyBuf)
    requires { length into.old + length piece.now + 20 ≤ REPLY_BYTES }
    ensures text { into.new ≡ into.old ++ (piece.now ++ decimal number) }
    ensures few { length into.new ≤ length into.old + length piece.now + 20 }
{
    into.put(piece);
    into.put_number(number);
}

/// Prints the name of a refusal and the number of a load's record, if there is one.
fn print_record(name: &[u8], number: Option<u32>, into: &mut ReplyBuf)
    requires { length into.old + length name.now + 40 ≤ REPLY_BYTES }
    ensures text { into.new ≡ into.old ++ (name.now ++ record_text number) }
    ensures few { length into.new ≤ length into.old + length name.now + 40 }
{
    into.put(name);
    if let Some(number) = number {
        print_number(b",\"record\":", number.into(), into);
    }
}

/// Prints the name of a refusal in quotes, and its further members.
fn print_refusal(refusal: Refusal, into: &mut ReplyBuf)
    requires { length into.old + 80 ≤ REPLY_BYTES }
    ensures text { into.new ≡ into.old ++ refusal_text refusal }
    ensures few { length into.new ≤ length into.old + 80 }
{
    match refusal {
        Refusal::LineTooLong => into.put(b"\"line-too-long\""),
        Refusal::NotJson => into.put(b"\"not-json\""),
        Refusal::UnknownOp => into.put(b"\"unknown-op\""),
        Refusal::BadShape => into.put(b"\"bad-shape\""),
        Refusal::NoSchema => into.put(b"\"no-schema\""),
        Refusal::SchemaSet => into.put(b"\"schema-set\""),
        Refusal::BadSchema { rule } => print_number(b"\"bad-schema\",\"rule\":", rule.into(), into),
        Refusal::NoTable => into.put(b"\"no-table\""),
        Refusal::BadCsv { number } => print_number(b"\"bad-csv\",\"record\":", number.into(), into),
        Refusal::BadRow { column } => print_number(b"\"bad-row\",\"column\":", column.into(), into),
        Refusal::TextTooLong { number } => print_record(b"\"text-too-long\"", number, into),
        Refusal::KeyExists { number } => print_record(b"\"key-exists\"", number, into),
        Refusal::NoRow => into.put(b"\"no-row\""),
        Refusal::TableFull { number } => print_record(b"\"table-full\"", number, into),
        Refusal::TextFull { number } => print_record(b"\"text-full\"", number, into),
        Refusal::NoTerms => into.put(b"\"no-terms\""),
        Refusal::TooManyTerms => into.put(b"\"too-many-terms\""),
        Refusal::BadK => into.put(b"\"bad-k\""),
        Refusal::Merging => into.put(b"\"merging\""),
        Refusal::NoMerge => into.put(b"\"no-merge\""),
        Refusal::MergeUnbuilt => into.put(b"\"merge-unbuilt\""),
        Refusal::JournalFull => into.put(b"\"journal-full\""),
        Refusal::Memory => into.put(b"\"memory\""),
    }
}

/// Prints the name of a fault in quotes, and its page.
fn print_fault(fault: Fault, into: &mut ReplyBuf)
    requires { length into.old + 80 ≤ REPLY_BYTES }
    ensures text { into.new ≡ into.old ++ fault_text fault }
    ensures few { length into.new ≤ length into.old + 80 }
{
    match fault {
        Fault::Read => into.put(b"\"read\""),
        Fault::Damaged { page } => print_number(b"\"damaged\",\"page\":", page, into),
        Fault::Write => into.put(b"\"write\""),
        Fault::Memory => into.put(b"\"memory\""),
    }
}

/// Prints `[id,score]`.
fn print_hit(hit: &Hit, into: &mut ReplyBuf)
    requires { length into.old + 43 ≤ REPLY_BYTES }
    ensures text { into.new ≡ into.old ++ hit_text hit.now }
    ensures few { length into.new ≤ length into.old + 43 }
{
    into.put(b"[");
    into.put_number(hit.id);
    into.put(b",");
    into.put_number(hit.score);
    into.put(b"]");
}

/// Prints hits, each behind a comma.
fn print_more(hits: &[Hit], into: &mut ReplyBuf)
    requires { length into.old + 44 * length hits.now ≤ REPLY_BYTES }
    ensures text { into.new ≡ into.old ++ flat_map more_text hits.now }
    ensures few { length into.new ≤ length into.old + 44 * length hits.now }
{
    for hit in hits {
        into.put(b",");
        print_hit(hit, into);
    }
}

/// Prints hits, with a comma between each two.
fn print_hits(hits: &[Hit], into: &mut ReplyBuf)
    requires { length into.old + 44 * length hits.now ≤ REPLY_BYTES }
    ensures text { into.new ≡ into.old ++ hits_text hits.now }
    ensures few { length into.new ≤ length into.old + 44 * length hits.now }
{
    let Some((first, rest)) = hits.split_first() else {
        return;
    };
    print_hit(first, into);
    print_more(rest, into);
}

/// Prints a reply, in place of what was printed before.
pub fn print_reply(reply: &Reply, into: &mut ReplyBuf)
    requires { IsPrintable reply.now }
    ensures { into.new ≡ text_of reply.now }
{
    into.clear();
    match reply {
        Reply::Accepted(number) => print_number(b"{\"ok\":", *number, into),
        Reply::Left(number) => print_number(b"{\"left\":", *number, into),
        Reply::Found(answer) => {
            into.put(b"{\"hits\":[");
            print_hits(answer.hits.as_slice(), into);
            print_number(b"],\"groups\":", answer.groups, into);
        }
        Reply::Refused(refusal) => {
            into.put(b"{\"error\":");
            print_refusal(*refusal, into);
        }
        Reply::Faulted(fault) => {
            into.put(b"{\"fault\":");
            print_fault(*fault, into);
        }
    }
    into.put(b"}\n");
}
