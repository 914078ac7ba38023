// The heap's public calls, and the types they take and give.
#![tactic(auto)]

pub use begin_fill::begin_fill;
pub use begin_fill_pointer::begin_fill_pointer;
pub use begin_new::begin_new;
pub use begin_store::begin_store;
pub use begin_store_pointer::begin_store_pointer;
pub use clear_register::clear_register;
pub use get_root::get_root;
pub use load::load;
pub use move_register::move_register;
pub use put_root::put_root;
pub use same::same;
pub use setup::{report, setup, unset};
pub use step::step;
pub use table::{Answer, Outcome, Refusal, Table};
