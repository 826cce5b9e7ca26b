//! The way from one normal form to another, and from which bases two of them lead apart.
ghost use Rattle.std.specs.Prelude.{◌≡◌, ◌≤◌, ◌<◌, ◌^◌, ◌↔◌, length, drop, IsTrue, IfSome, IsNone, MatchOption};
ghost use Rattle.relative_path.specs.NormalForm.{ups_then_names, form_names, form_steps, form_len};
ghost use Rattle.relative_path.specs.Relating.{IsReachable, IsShortest, LeadsApart};
ghost use Rattle.relative_path.specs.Walk.{IsSame};

use crate::normal_form::NormalForm;

// The way from one normal form to another: `climb` times `..`, and then the target's names after the first `skipped`.
#[derive(Clone, Copy)]
pub(crate) struct Way {
    pub(crate) climb: usize,
    pub(crate) skipped: usize,
}

impl Way {
    // Returns the shortest way from one normal form to another, if some path leads there.
    pub(crate) fn between(from: &NormalForm<'_>, to: &NormalForm<'_>) -> Option<Way>
        requires from { form_len from.now < 2 ^ 63 }
        requires to { form_len to.now < 2 ^ 63 }
        ensures none { IsNone result → ¬ IsReachable (form_steps from.now) (form_steps to.now) }
        ensures shortest { IfSome result (λ way. IsShortest (form_steps from.now)
            (ups_then_names way.climb (drop way.skipped (form_names to.now))) (form_steps to.now)) }
        ensures within { IfSome result (λ way. way.skipped ≤ length (form_names to.now)) }
    {
        let higher = to.climb().checked_sub(from.climb())?;
        let common = if higher == 0 { from.common_len(to) } else { 0 };
        Some(Way {
            climb: from.names_len() - common + higher,
            skipped: common,
        })
    }
}

// Returns the length of the shortest base from which two normal forms lead apart. `None` if they lead alike from every
// base.
pub(crate) fn shortest_separating_base(
    form: &NormalForm<'_>,
    other: &NormalForm<'_>,
) -> Option<usize>
    ensures { MatchOption result (IsSame (form_steps form.now) (form_steps other.now))
        (λ n. LeadsApart (form_steps form.now) (form_steps other.now) n) }
{
    if form.climb() == other.climb() && have_same_names(form, other) {
        None
    } else {
        Some(form.climb().min(other.climb()))
    }
}

// Returns whether two normal forms have the same names.
fn have_same_names(form: &NormalForm<'_>, other: &NormalForm<'_>) -> bool
    ensures { IsTrue result ↔ (form_names form.now ≡ form_names other.now) }
{
    let common = form.common_len(other);
    common == form.names_len() && common == other.names_len()
}
