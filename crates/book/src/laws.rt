// What holds of every book, as theorems about its definitions.
ghost use Rattle.book.specs.Home.{RetreatsLeadHome};
ghost use Rattle.book.specs.Lawful.{BookDecides};

// The check passes exactly the bytes that declare kinds, with those kinds.
pub fn book_decides()
    ensures { BookDecides }
{}

// In a passed book every named station comes home within its rank, at most 15 letters.
pub fn retreats_lead_home()
    ensures { RetreatsLeadHome }
{}
