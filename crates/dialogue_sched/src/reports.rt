//! The reports of several scripts.

ghost use Rattle.std.specs.Prelude.{◌≡◌};

use session::Report;
use std::marker::Model;

/// Reports, in the order of their scripts. A contract sees a list.
#[derive(Drop)]
pub struct Reports {
    pub list: Vec<Report>,
}

impl Model for Reports {
    ghost use Rattle.std.specs.Prelude.{List};
    ghost use Rattle.session.specs.declared.report.Report.{Report};

    ghost Value = { List Report };

    ghost view = { λ t. t.list.items };
}

impl Reports {
    /// Returns the reports in order.
    pub fn as_slice(&self) -> &[Report]
        ensures value { result.now ≡ self.now }
    {
        self.list.as_slice()
    }
}
