// Document 01, 'Port': the port after a call, and its phys.
ghost use Rattle.std.specs.Prelude.{◌≡◌};
ghost use Rattle.port_parts.specs.Parts.{absent_phy};
ghost use Rattle.port_rows.specs.Answers.{later, with_phy, fresh, no_port, unconnected_phy, opening_phy, staged_phy};
ghost use Rattle.port_rows.specs.Calls.{phy_at};

use port_parts::{NO_SLOT, Phy, Port, phy_stage};

pub(crate) fn later(p: Port, now: u64) -> Port
    ensures { result ≡ later p now }
{
    Port { last: now, ..p }
}

fn absent_phy() -> Phy
    ensures { result ≡ absent_phy }
{
    Phy::default()
}

// Phy k.
pub fn phy_at(p: Port, k: u8) -> Phy
    ensures { result ≡ phy_at p k }
{
    match p.phys.get(k as usize) {
        Some(f) => *f,
        None => absent_phy(),
    }
}

// The port with f for its phy k, at a time.
pub(crate) fn with_phy(p: Port, k: u8, f: Phy, now: u64) -> Port
    ensures { result ≡ with_phy p k f now }
{
    let mut phys = p.phys;
    let i = k as usize;
    if i < phys.len() {
        phys[i] = f;
    }
    Port {
        last: now,
        phys,
        ..p
    }
}

pub(crate) fn fresh(count: u8, loss: u16) -> Port
    ensures { result ≡ fresh count loss }
{
    let phy = port_parts::disabled_phy();
    Port {
        count,
        loss,
        last: 0,
        phys: [phy; 8],
    }
}

pub fn no_port() -> Port
    ensures { result ≡ no_port }
{
    Port::default()
}

// A phy in another stage, connected as before.
pub(crate) fn staged_phy(stage: u8, slot: u8, f: Phy) -> Phy
    ensures { result ≡ staged_phy stage slot f }
{
    Phy { stage, slot, ..f }
}

pub(crate) fn opening_phy(slot: u8) -> Phy
    ensures { result ≡ opening_phy slot }
{
    Phy {
        stage: phy_stage::OPENING,
        slot,
        ..Phy::default()
    }
}

// An unconnected phy.
pub(crate) fn unconnected_phy() -> Phy
    ensures { result ≡ unconnected_phy }
{
    Phy {
        stage: phy_stage::UNCONNECTED,
        slot: NO_SLOT,
        ..Phy::default()
    }
}
