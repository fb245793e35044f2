//! The law of records, for the crates above to cite.
ghost use Rattle.acng_head.specs.Records.{OneRecord};

/// A text is the record of one head.
pub fn one_record()
    ensures { OneRecord }
{}
