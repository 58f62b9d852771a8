//! The law of the typed writers, for those who make its calls themselves.

ghost use Rattle.writer.specs.Histories.{EveryHistory};

/// Calls from a fresh writer on, each given the bytes as the call before left them, write what `write_all` writes by
/// these calls: what the accepted ones put in, and nothing behind it.
pub fn every_history()
    ensures { EveryHistory }
{}
