// Every record of a stream, a line each as it is read, and a closing line.
ghost use Rattle.std.specs.Prelude.{◌≡◌, IfOk, is_some};
ghost use Rattle.desk.specs.Listing.{Listed, Shown};
ghost use Rattle.wire.specs.Reading.{bytes, position};

use lines::record::RecordLine;
use std::io;
use wire::reader::Reader;
use wire::record::Record;

// How far a listing came, and how many records it saw: two counts, of no buffer.
#[derive(Clone, Copy, PartialEq, Eq, Debug)]
pub struct Listing {
    pub read: usize,
    pub records: usize,
}

pub fn list(rt: &HostRuntime, input: &[u8]) -> io::Result<Listing>
    ensures { IfOk result (λ s. Listed input.now s.records s.read) }
{
    let mut reader = Reader::new(input);
    let mut records = 0;
    // No plainer: from_fn(|| show_next(rt, &mut reader).transpose()).try_fold(0, |n, shown| ..)?.
    while show_next(rt, &mut reader)?.is_some() {
        records += 1;
    }
    let read = reader.position();
    let all = input.len();
    println!(rt; "end: {read} of {all} bytes, {records} records")?;
    Ok(Listing { read, records })
}

// Prints the next record, or why there is none. Gives the record that it printed: none at the end
// and after a refusal.
fn show_next<'a>(rt: &HostRuntime, reader: &mut Reader<'a>) -> io::Result<Option<Record<'a>>>
    ensures shown { IfOk result (λ shown. Shown (is_some shown) (bytes reader.old) (position reader.old) (position reader.new)) }
    ensures bytes { bytes reader.new ≡ bytes reader.old }
{
    let at = reader.position();
    // No `?`: a refusal is printed, and ends the listing as the end does.
    match reader.next() {
        Ok(Some(record)) => {
            println!(rt; "@{at} {}", RecordLine(record))?;
            Ok(Some(record))
        }
        Ok(None) => Ok(None),
        Err(refusal) => {
            println!(rt; "@{at}")?;
            println!(rt; "  {refusal}")?;
            Ok(None)
        }
    }
}
