//! Rank intervals (`rank_inversion`): those of drawn tables are compared with those of a slow program (`slow_ranks`), and by the same
//! enumeration the definitions of `rank_model` are tried, with no code of an interval; and intervals are jobs. Those worked by hand, with all
//! that they state and stop for, are cases of `cases`.

mod definitions;
mod drawn;
mod helpers;
mod jobs;
