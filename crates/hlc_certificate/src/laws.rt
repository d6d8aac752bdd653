//! What is true of every written certificate.
ghost use Rattle.hlc_certificate.specs.OneAnswer.{OneAnswer, OneCertificate};
ghost use Rattle.hlc_certificate.specs.ReadBack.{PrintedEndsFewest, PrintedIsRead, PrintedShowsFewest};

/// Lines say one list of points, one of rows and one of witnesses, so whether they show that the rows are the fewest
/// depends on the input alone.
pub fn one_certificate_for_lines()
    ensures { OneCertificate }
{}

/// States that an input has one answer, which is one line, and one end of the check, except where an end reports out of
/// memory or a read failed.
pub fn one_answer_for_an_input()
    ensures { OneAnswer }
{}

/// States that what is printed for points, rows and witnesses is read back as exactly these.
pub fn printed_certificates_are_read()
    ensures { PrintedIsRead }
{}

/// States that a check of what is printed answers that the rows are the fewest, and what they cost, where the witnesses
/// show it and memory does not run out.
pub fn printed_certificates_show_fewest()
    ensures { PrintedShowsFewest }
{}

/// States the same of a check of what is printed that is in memory, however long it is.
pub fn printed_certificates_end_fewest()
    ensures { PrintedEndsFewest }
{}
