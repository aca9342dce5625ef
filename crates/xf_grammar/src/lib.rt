//! The words of a line to its head and its fields, by tables, and the values of fields.
#![tactic(auto)]

mod fields;
mod flow_tables;
mod given;
mod head;
mod keyword;
mod lookup;
mod number;
mod row;
mod state_tables;
mod tables;
mod template_tables;
mod values;

pub use fields::Progress;
pub use given::Fields;
pub use head::{Head, HeadTable, read_head};
pub use lookup::{
    OWN, action_in, addr_at, addr_in_group, dir_in, has, has_any, has_in_group, icv_in, ipsec_in,
    ipsec_in_group, level_in_group, mode_in, mode_in_group, prefix_at, prefix_in_group, ptype_in,
    u8_at, u8_in_group, u16_in_group, u32_at, u32_in_group, u64_at, value_at,
};
pub use row::{Arg, Args, Field, Names, Slot, Table, Value};
pub use tables::{first_in, tables_in};
