//! Laws of paths. Each function does nothing; its contract is the law.

ghost use Rattle.paths.specs.Law.{OneAnswer};
ghost use Rattle.paths.specs.Hinge.{HingePath};

/// The law of paths leaves one answer for each model, query and number of rows.
pub fn one_answer()
    ensures { OneAnswer }
{}

/// The worked example: a query of three steps over the nodes of one small document.
pub fn hinge_path()
    ensures { HingePath }
{}
