//! The scripts of a hall.

use session::Settings;
use tcl_words::Text;

/// A script to be run.
#[derive(Drop)]
pub struct Script {
    pub source: Text,
    pub settings: Settings,
}
