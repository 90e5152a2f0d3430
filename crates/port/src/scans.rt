// Document 01, 'Port': how the calls look at the list. In one pass each record is tested, held against those behind it, and asked
// what the call looks for.
ghost use Rattle.std.specs.Prelude.{◌≡◌, ℕ, get_or};
ghost use Rattle.laws.specs.Folds.{fold_to};
ghost use Rattle.port_parts.specs.Parts.{blank};
ghost use Rattle.port_parts.specs.declared.Request.{Request as Record};
ghost use Rattle.port_rules.specs.Rules.{apart_from, rules};

use port_parts::{Port, Request};
use port_rules::Compared;

// The record at a slot; no record from 32 on.
pub(crate) fn load(list: &[Request; 32], slot: u8) -> Request
    ensures { result ≡ get_or list.now slot blank }
{
    match list.get(slot as usize) {
        Some(r) => *r,
        None => port_parts::blank(),
    }
}

// Whether a request is apart from all behind it.
fn apart_from(list: &[Request; 32], x: Compared) -> bool
    ensures { result ≡ apart_from list.now x }
{
    let mut kept = true;
    for i in x.from..32 {
        kept = port_rules::apart_step(kept, list[i], i, x);
    }
    kept
}

// Whether the lent state keeps its rules, and what is found if each record joins what was found before it. The two stand side by side,
// and not as an Option, since a call's core names the first cause of a refusal, and there the rules aren't always the first.
pub(crate) fn survey<A: Copy, F: Fn(A, Request, usize) -> A>(
    list: &[Request; 32],
    p: Port,
    start: A,
    join: F,
) -> (bool, A)
    requires { F.IsAlwaysCallable join }
    ensures kept { result.0 ≡ rules p list.now }
    ensures found { (step : A → Record → ℕ → A) → ((a : A) (r : Record) (i : ℕ) (b : A) → F.post join a r i b → b ≡ step a r i) → result.1 ≡ fold_to blank step start list.now 32 }
{
    let mut kept = port_rules::port_rule(p);
    let mut found = start;
    for (i, r) in list.iter().enumerate() {
        let apart = apart_from(list, port_rules::compared_of(*r, i));
        kept = (kept & port_rules::request_rule(p, *r, i)) & apart;
        found = join(found, *r, i);
    }
    (kept, found)
}
