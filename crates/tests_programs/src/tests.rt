mod columns;
mod coupling;
mod programs;
