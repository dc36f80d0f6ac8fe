// The checks of an entry's form. Each is named by the field that it is about.
ghost use Rattle.std.specs.Prelude.{◌≡◌};
ghost use Rattle.entries.specs.Form.{date_check, designation_check, form, in_bounds, kind_check, may_designate, minimum_check, price_check, quantity_check, require, side_check, time_check, time_fits};

use crate::checked::CheckedEntry;
use editions::edition::Edition;
use orders::entry::Entry;
use orders::kind::Kind;
use orders::refusal::{Reason, Refusal};
use orders::sessions::Sessions;
use orders::side::Side;
use orders::terms::Terms;
use orders::time::TimeInForce;

// The entry in checked form, or the refusal of the first check that fails.
pub fn check_form<E: Edition>(entry: &Entry) -> Result<CheckedEntry, Refusal>
    ensures { result ≡ form E.Edition.text entry.now }
{
    let side = check_side(entry)?;
    check_price(entry)?;
    check_quantity(entry)?;
    let kind = check_kind::<E>(entry)?;
    check_minimum(entry, kind)?;
    let time = check_time::<E>(entry, kind)?;
    let designation = check_designation(entry, kind, time)?;
    check_date(entry, time)?;
    Ok(CheckedEntry {
        member: entry.member,
        side,
        price: entry.price,
        quantity: entry.quantity,
        terms: Terms {
            kind,
            minimum: entry.minimum,
        },
        time,
        designation,
        date: entry.date,
    })
}

// Whether a price or a quantity is from 1 to 1,000,000.
pub fn in_bounds(number: u32) -> bool
    ensures { result ≡ in_bounds number }
{
    (1..=1_000_000).contains(&number)
}

// Passes if the test holds.
fn require(fits: bool, reason: Reason) -> Result<(), Refusal>
    ensures { result ≡ require fits reason }
{
    if fits {
        Ok(())
    } else {
        Err(Refusal::direct(reason))
    }
}

fn check_side(entry: &Entry) -> Result<Side, Refusal>
    ensures { result ≡ side_check entry.now }
{
    Side::try_from(entry.side).map_err(|_| Refusal::direct(Reason::UnknownSide))
}

fn check_price(entry: &Entry) -> Result<(), Refusal>
    ensures { result ≡ price_check entry.now }
{
    require(in_bounds(entry.price), Reason::PriceOutOfRange)
}

fn check_quantity(entry: &Entry) -> Result<(), Refusal>
    ensures { result ≡ quantity_check entry.now }
{
    require(in_bounds(entry.quantity), Reason::QuantityOutOfRange)
}

fn check_kind<E: Edition>(entry: &Entry) -> Result<Kind, Refusal>
    ensures { result ≡ kind_check E.Edition.text entry.now }
{
    Kind::try_from(entry.kind)
        .ok()
        .filter(|&kind| E::KINDS.contains(kind))
        .ok_or(Refusal::direct(Reason::KindNotAllowed))
}

fn check_minimum(entry: &Entry, kind: Kind) -> Result<(), Refusal>
    ensures { result ≡ minimum_check kind entry.now }
{
    let fits = match kind {
        Kind::MinimumQuantity => (1..=entry.quantity).contains(&entry.minimum),
        _ => entry.minimum == 0,
    };
    require(fits, Reason::MinimumNotAllowed)
}

fn check_time<E: Edition>(entry: &Entry, kind: Kind) -> Result<TimeInForce, Refusal>
    ensures { result ≡ time_check E.Edition.text kind entry.now }
{
    TimeInForce::try_from(entry.time)
        .ok()
        .filter(|&time| E::TIMES.contains(time) && time_fits(kind, time))
        .ok_or(Refusal::direct(Reason::TimeNotAllowed))
}

// F is for the day alone.
fn time_fits(kind: Kind, time: TimeInForce) -> bool
    ensures { result ≡ time_fits kind time }
{
    kind != Kind::FillOrKill || time == TimeInForce::Day
}

fn check_designation(
    entry: &Entry,
    kind: Kind,
    time: TimeInForce,
) -> Result<Option<Sessions>, Refusal>
    ensures { result ≡ designation_check kind time entry.now }
{
    if entry.designation == 0 {
        return Ok(None);
    }
    Sessions::try_from(entry.designation)
        .ok()
        .filter(|_| may_designate(kind, time))
        .map(Some)
        .ok_or(Refusal::direct(Reason::DesignationNotAllowed))
}

// Only a day order may ask for sessions, and none of kind F.
fn may_designate(kind: Kind, time: TimeInForce) -> bool
    ensures { result ≡ may_designate kind time }
{
    kind != Kind::FillOrKill && time == TimeInForce::Day
}

fn check_date(entry: &Entry, time: TimeInForce) -> Result<(), Refusal>
    ensures { result ≡ date_check time entry.now }
{
    require(
        time == TimeInForce::GoodTillDate || entry.date == 0,
        Reason::DateNotAllowed,
    )
}
