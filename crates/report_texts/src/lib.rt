//! The texts of reports, and how they are written.
//!
//! A report has one of the forms in [`Format`]. Reports are written one by one, so that memory
//! refused to one report doesn't affect others. `specs/Form` defines the text of reports, and
//! `specs/Written` what is written of it.
#![tactic(auto)]

mod acts;
mod asks;
mod devices;
mod escape;
mod form;
mod json;
mod line;
mod masking;
mod reporting;
mod tally;
mod tap;
mod texts;

pub use acts::{Spelling, push_act};
pub use devices::{MOST_CALLS, ReadFault, Unwritten, read_all, write_all};
pub use escape::{Escaping, push_quoted, push_text};
pub use form::{Form, Format, Spares, made_spares};
pub use line::push_line;
pub use masking::{masked_report, masked_reports, masked_requests};
pub use reporting::write_reports;
pub use texts::{Shown, is_done, push_head, push_labelled, total};
