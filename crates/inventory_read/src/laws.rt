//! What holds of any two lists of entries that are merged to one.
ghost use Rattle.inventory_read.specs.Laws.{MergedListsKeepEveryEntry, MergedListsAreInNameOrder, OwnEntriesComeFirst};

/// The children of `all` are its own and those listed beside it: none is lost, and none is listed more often.
pub fn merged_lists_keep_every_entry()
    ensures { MergedListsKeepEveryEntry }
{}

/// Where both lists are in the order of names, so are the children of `all`.
pub fn merged_lists_are_in_name_order()
    ensures { MergedListsAreInNameOrder }
{}

/// Of two children of `all` with one name its own comes first.
pub fn own_entries_come_first()
    ensures { OwnEntriesComeFirst }
{}
