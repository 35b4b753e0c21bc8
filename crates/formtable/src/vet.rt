// The tests of vetting.
ghost use Rattle.std.specs.Prelude.{◌≡◌, ℕ, Bool};
ghost use Rattle.common.specs.Faults.{numbered};
ghost use Rattle.formtable.specs.Faults.{form_number};
ghost use Rattle.formtable.specs.Layout.{reaches};
ghost use Rattle.formtable.specs.Layout.{past as past_of};
ghost use Rattle.formtable.specs.Vet.{all_allowed, bound, each_go, fits as fitting, guarded, laid_out, verdict};
ghost use Rattle.formtable.specs.Vet.{allowed as allowed_record};

use crate::fault::FormFault;
use crate::layout::{form_at, past};
use crate::record::{Form, RECORDS, Record};
use process::LAST_MOTION;

// Are there 1 to 64 records?
fn fits(raw: &[Record]) -> bool
    ensures { result ≡ fitting raw.now }
{
    !raw.is_empty() && raw.len() <= RECORDS
}

// Is the record's kind known, and its argument allowed?
fn allowed(r: Record) -> bool
    ensures { result ≡ allowed_record r }
{
    match Form::try_from(r) {
        Ok(Form::End | Form::Tau | Form::Rec) => r.argument == 0,
        Ok(Form::Do(motion)) => (1..=u16::from(LAST_MOTION)).contains(&motion),
        Ok(Form::Or(_) | Form::Go(_)) => true,
        Err(_) => false,
    }
}

// Is every record allowed?
fn all_allowed(raw: &[Record]) -> bool
    ensures { result ≡ all_allowed raw.now }
{
    raw.iter().all(|r| allowed(*r))
}

// Is the table laid out well?
fn laid_out(raw: &[Record]) -> bool
    ensures { result ≡ laid_out raw.now }
{
    past(raw, 0) == Some(raw.len())
}

// Does the form at d stand over j, for d before j?
fn over(raw: &[Record], d: usize, j: usize) -> bool
    ensures { result ≡ reaches j (past_of raw.now d) }
{
    past(raw, d).is_some_and(|p| j < p)
}

// Does each go pass the test, by its place and the place that it names?
fn each_go<F: Fn(usize, usize) -> bool>(raw: &[Record], test: F) -> bool
    ghost passes: { ℕ → ℕ → Bool }
    requires callable { F.IsAlwaysCallable test }
    requires computes { (j k : ℕ) (b : Bool) → F.post test j k b → b ≡ passes j k }
    ensures { result ≡ each_go passes raw.now }
{
    (0..raw.len()).all(|j| match form_at(raw, j) {
        Some(Form::Go(k)) => test(j, k as usize),
        _ => true,
    })
}

// Does the go at j name a rec around it by the place k?
fn bound(raw: &[Record], j: usize, k: usize) -> bool
    ensures { result ≡ bound raw.now j k }
{
    form_at(raw, k) == Some(Form::Rec) && k < j && over(raw, k, j)
}

// Does some do between the rec at k and the go at j stand over the go?
fn guarded(raw: &[Record], j: usize, k: usize) -> bool
    ensures { result ≡ guarded raw.now j k }
{
    (0..j).any(|d| k < d && matches!(form_at(raw, d), Some(Form::Do(_))) && over(raw, d, j))
}

// The first test that a table fails.
pub fn tested(raw: &[Record]) -> Result<(), FormFault>
    ensures { numbered form_number result ≡ verdict raw.now }
{
    if !fits(raw) {
        return Err(FormFault::Length);
    }
    if !all_allowed(raw) {
        return Err(FormFault::Kind);
    }
    if !laid_out(raw) {
        return Err(FormFault::Layout);
    }
    if !each_go(raw, |j, k| bound(raw, j, k)) {
        return Err(FormFault::Unbound);
    }
    if !each_go(raw, |j, k| guarded(raw, j, k)) {
        return Err(FormFault::Unguarded);
    }
    Ok(())
}
