// The law of filters, the contract of a function.

ghost use Rattle.cg_sim_filter.specs.Filters.{FiltersAnswer};

/// What a filter answers is what its expression gives in the store for which the server stands, and as which it stands then.
pub fn filter_answers()
    ensures { FiltersAnswer }
{}
