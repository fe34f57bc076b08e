mod checking;
mod leaves;
mod shared;
mod texts;
