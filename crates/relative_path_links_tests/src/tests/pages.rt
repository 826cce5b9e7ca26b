//! A page that the rewriter is given whole.

/// A page with a link of each sort. Each link's text says what the link becomes.
pub const PAGE: &str = r#"# Links of a page that moves

```rust
let page = "[the callers](CALLING.md) [above](../../a.md)";
```

| A link here | stands on the moved page as |
|---|---|
| [the callers](CALLING.md), which move too | `calling.md` |
| [the errors](CALLING.md#errors), with a fragment | `calling.md#errors` |
| [the decisions](DECISIONS.md "why it is made so"), with a title | `../docs/DECISIONS.md "why it is made so"` |
| [the contracts](contracts/), with a slash at its end | `../docs/contracts/` |
| [this one][calling], by its definition below | `calling.md` |
| [this page](PAGE.md) | `links.md` |
| [the front page](../README.md), [a part of this page](#links-of-a-page-that-moves), [a site](https://www.rust-lang.org/) and [the server's root](/docs/) | as they are |
| `[the callers](CALLING.md)`, in code | as it is |

Moved back, all links are as here but two: `../docs/DECISIONS.md` and `../docs/contracts/` still lead there, so they stay.

[calling]: CALLING.md
"#;
