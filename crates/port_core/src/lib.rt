// Document 01, 'Port': the ten calls, each on the record that it is about and on numbers. The crate above finds the record in the
// lent list and stores it there.
#![tactic(auto)]

// The cores take port, record, rules and arguments one by one, which may not change: port_rows' definitions (`opened_core p r kept x`) and the theorems on them take them so.
mod answers;
mod cancels;
mod chooses;
mod finds;
mod opens;
mod phys;
mod ports;
mod records;
mod submits;

pub use answers::refused_by;
pub use cancels::cancel_core;
pub use chooses::choose_core;
pub use finds::{key_step, no_room, room_step};
pub use opens::{open_failed_core, opened_core};
pub use phys::{closed_core, disable_core, enable_core, frame_status_core};
pub use ports::{no_port, phy_at};
pub use records::timed;
pub use submits::{setup_core, submit_core};
