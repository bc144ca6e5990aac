// What a protected table keeps: laws of the definitions, with no code.
ghost use Rattle.section_protect.specs.Protects.{ProtectedTablesLoseNothing, CertifiedTablesAreExact};

/// A table's own sections stay first and unchanged, and from each legal state all trains can arrive with the guards
/// exactly where they can without. If the search ended with a certificate, the legal states with the guards are exactly
/// those from which all trains can arrive.
pub fn protected_tables_lose_nothing()
    ensures lossless { ProtectedTablesLoseNothing }
    ensures exact { CertifiedTablesAreExact }
{}
