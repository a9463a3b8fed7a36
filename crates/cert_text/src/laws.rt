//! The laws of certificates as text. No function here does anything: its contract is the law.

ghost use Rattle.cert_text.specs.Laws.{ReadIsWithin, SameContent, TreeReadsBack};

/// What is written is read back, where it is within the limits.
pub fn tree_reads_back()
    ensures { TreeReadsBack }
{}

/// A certificate that was read is within the limits.
pub fn read_is_within()
    ensures { ReadIsWithin }
{}

/// Certificates that say the same are the same.
pub fn same_content()
    ensures { SameContent }
{}
