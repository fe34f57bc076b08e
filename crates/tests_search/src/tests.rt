mod ascent;
mod judging;
mod meetings;
mod plans;
mod search;
mod stations;
