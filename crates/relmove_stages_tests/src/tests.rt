mod example;
mod moves;
mod runs;
mod trial;
