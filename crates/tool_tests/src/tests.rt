mod drawn;
mod failures;
mod lines;
mod pages;
mod scripts;
mod windows;
