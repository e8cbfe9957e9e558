//! What certified rows are where the names are those of the listing.
ghost use Rattle.std.specs.Prelude.{◌≡◌, ℕ, ◌↔◌, List};
ghost use Rattle.column_order.specs.Columns.{ColumnList};
ghost use Rattle.relation_list.specs.declared.names.RelName.{RelName};
ghost use Rattle.relation_list.specs.Listings.{listing_of};
ghost use Rattle.table_model.specs.Complete.{Evaluates};
ghost use Rattle.cert_checker.specs.Certified.{IsCertified};

/// A row is certified by the names of the listing exactly where it evaluates. It does nothing when it is called.
pub fn listed_rows_evaluate()
    ensures { (m : ℕ) (columns : ColumnList) (row combination : ℕ → ℕ)
        → IsCertified m columns (listing_of columns.weight columns.depth) row combination ↔ Evaluates m columns row combination }
{}
