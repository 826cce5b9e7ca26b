//! Calls that answer a question about one or two paths.
ghost use Rattle.std.specs.Prelude.{◌≡◌, ◌≤◌, ◌↔◌, IsTrue, List, ℕ};
ghost use Rattle.std.specs.Str.{IsUtf8};
ghost use Rattle.relative_path.specs.Comparing.{steps_cmp};
ghost use Rattle.relative_path.specs.Normalizing.{IsNormal, IsNormalForm, climb};
ghost use Rattle.relative_path.specs.Prefixing.{StartsWith, EndsWith};
ghost use Rattle.relative_path.specs.Relating.{LeadsApart};
ghost use Rattle.relative_path.specs.Steps.{Step, components};
ghost use Rattle.relative_path.specs.Walk.{IsSame};
ghost use Rattle.relative_path_c.specs.Numbers.{order_number};
ghost use Rattle.relative_path_c.specs.Status.{done, not_utf8, absent, no_room, out_of_memory};

use crate::status::{ABSENT, Answer, Count, DONE, NOT_UTF8, OUT_OF_MEMORY, Order, view};
use std::alloc::Global;
use std::cmp::Ordering;

// Returns an answer.
fn answer(yes: bool) -> Answer
    ensures status { result.status ≡ done }
    ensures yes { result.yes ≡ yes }
{
    Answer { status: DONE, yes }
}

// Returns that an argument isn't UTF-8.
fn no_answer() -> Answer
    ensures { result.status ≡ not_utf8 }
{
    Answer {
        status: NOT_UTF8,
        yes: false,
    }
}

// Returns a status without a number.
fn no_count(status: u32) -> Count
    ensures { result.status ≡ status }
{
    Count { status, count: 0 }
}

/// Returns whether the components of `text` begin with those of `base`.
#[unsafe(no_mangle)]
pub extern "C" fn relative_path_starts_with(text: &[u8], base: &[u8]) -> Answer
    // whether the path starts with the base
    ensures yes { result.status ≡ done
        → IsTrue result.yes ↔ StartsWith (components text.now) (components base.now) }
    // exactly if a text isn't UTF-8
    ensures not_utf8 { (result.status ≡ not_utf8) ↔ (¬ (IsUtf8 text.now × IsUtf8 base.now)) }
    // `done` or `not_utf8`
    ensures status { result.status ≤ not_utf8 }
{
    let (Some(text), Some(base)) = (view(text), view(base)) else {
        return no_answer();
    };
    answer(text.starts_with(base))
}

/// Returns whether the components of `text` end with those of `child`.
#[unsafe(no_mangle)]
pub extern "C" fn relative_path_ends_with(text: &[u8], child: &[u8]) -> Answer
    // whether the path ends with the child
    ensures yes { result.status ≡ done
        → IsTrue result.yes ↔ EndsWith (components text.now) (components child.now) }
    // exactly if a text isn't UTF-8
    ensures not_utf8 { (result.status ≡ not_utf8) ↔ (¬ (IsUtf8 text.now × IsUtf8 child.now)) }
    // `done` or `not_utf8`
    ensures status { result.status ≤ not_utf8 }
{
    let (Some(text), Some(child)) = (view(text), view(child)) else {
        return no_answer();
    };
    answer(text.ends_with(child))
}

/// Returns whether the components of `text` are `..` first, then names only.
#[unsafe(no_mangle)]
pub extern "C" fn relative_path_is_normalized(text: &[u8]) -> Answer
    // whether the components are normal
    ensures yes { result.status ≡ done → IsTrue result.yes ↔ IsNormal (components text.now) }
    // exactly if a text isn't UTF-8
    ensures not_utf8 { (result.status ≡ not_utf8) ↔ (¬ IsUtf8 text.now) }
    // `done` or `not_utf8`
    ensures status { result.status ≤ not_utf8 }
{
    let Some(text) = view(text) else {
        return no_answer();
    };
    answer(text.is_normalized())
}

/// Returns whether the two have the same components.
#[unsafe(no_mangle)]
pub extern "C" fn relative_path_eq(text: &[u8], other: &[u8]) -> Answer
    // whether the components are equal
    ensures yes { result.status ≡ done
        → IsTrue result.yes ↔ (components text.now ≡ components other.now) }
    // exactly if a text isn't UTF-8
    ensures not_utf8 { (result.status ≡ not_utf8) ↔ (¬ (IsUtf8 text.now × IsUtf8 other.now)) }
    // `done` or `not_utf8`
    ensures status { result.status ≤ not_utf8 }
{
    let (Some(text), Some(other)) = (view(text), view(other)) else {
        return no_answer();
    };
    answer(text == other)
}

// Returns the number of an order.
fn number_of(order: Ordering) -> u32
    ensures { result ≡ order_number order }
{
    match order {
        Ordering::Less => 0,
        Ordering::Equal => 1,
        Ordering::Greater => 2,
    }
}

/// Compares the two by their components.
#[unsafe(no_mangle)]
pub extern "C" fn relative_path_cmp(text: &[u8], other: &[u8]) -> Order
    // the number for the order of the components
    ensures order { result.status ≡ done
        → result.order ≡ order_number (steps_cmp (components text.now) (components other.now)) }
    // exactly if a text isn't UTF-8
    ensures not_utf8 { (result.status ≡ not_utf8) ↔ (¬ (IsUtf8 text.now × IsUtf8 other.now)) }
    // `done` or `not_utf8`
    ensures status { result.status ≤ not_utf8 }
{
    let (Some(text), Some(other)) = (view(text), view(other)) else {
        return Order {
            status: NOT_UTF8,
            order: 0,
        };
    };
    Order {
        status: DONE,
        order: number_of(text.cmp(&other)),
    }
}

/// Returns how many names a base needs for `text` to lead to a place from it.
#[unsafe(no_mangle)]
pub extern "C" fn relative_path_climb(text: &[u8]) -> Count
    // how many `..` the normal form begins with
    ensures climb { result.status ≡ done
        → (steps : List Step) → IsNormalForm (components text.now) steps → result.count ≡ climb steps }
    // exactly if a text isn't UTF-8
    ensures not_utf8 { (result.status ≡ not_utf8) ↔ (¬ IsUtf8 text.now) }
    // `done` or `not_utf8`
    ensures status { result.status ≤ not_utf8 }
{
    let Some(text) = view(text) else {
        return no_count(NOT_UTF8);
    };
    Count {
        status: DONE,
        count: text.climb(),
    }
}

/// Returns the length of the shortest base from which the two lead apart. The status is 'absent' if they lead alike from
/// every base.
#[unsafe(no_mangle)]
pub extern "C" fn relative_path_leads_apart(alloc: Global, text: &[u8], other: &[u8]) -> Count
    // the length of the shortest separating base
    ensures apart { result.status ≡ done
        → LeadsApart (components text.now) (components other.now) result.count }
    // only if the paths are equivalent
    ensures absent { result.status ≡ absent → IsSame (components text.now) (components other.now) }
    // exactly if a text isn't UTF-8
    ensures not_utf8 { (result.status ≡ not_utf8) ↔ (¬ (IsUtf8 text.now × IsUtf8 other.now)) }
    // the status is never `no_room`
    ensures room { ¬ (result.status ≡ no_room) }
    // `done`, `not_utf8`, `absent`, `no_room` or `out_of_memory`
    ensures status { result.status ≤ out_of_memory }
{
    let (Some(text), Some(other)) = (view(text), view(other)) else {
        return no_count(NOT_UTF8);
    };
    match text.leads_apart(alloc, other) {
        Ok(Some(count)) => Count {
            status: DONE,
            count,
        },
        Ok(None) => no_count(ABSENT),
        Err(_) => no_count(OUT_OF_MEMORY),
    }
}
